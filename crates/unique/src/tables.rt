// The unique table.
use diagram::edges::Diamond;
use std::marker::Model;

// The diamonds of an engine, with an index to look them up by: each diamond has a bucket, and those of one bucket are chained, the newest first.
#[derive(Drop)]
pub struct UniqueTable {
    pub(crate) diamonds: Vec<Diamond>,
    // for each bucket, its newest diamond
    pub(crate) heads: Vec<Option<u16>>,
    // for each diamond, the newest one before it in the same bucket
    pub(crate) links: Vec<Option<u16>>,
}

// Clauses see the diamonds.
impl Model for UniqueTable {
    ghost use Rattle.std.specs.Prelude.{List};
    ghost use Rattle.diagram.specs.declared.edges.Diamond.{Diamond};

    ghost Value = { List Diamond };

    ghost use Rattle.unique.specs.Index.{IsIndexed};

    ghost view = { λ t. t.diamonds.items };

    ghost invariant = { λ t. IsIndexed t };
}
