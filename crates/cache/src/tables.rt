// The table of a computed cache.
use crate::entries::Entry;
use std::marker::Model;

// A row of places, each with an entry or none. An engine owns it and lends it to its cache.
#[derive(Drop)]
pub struct Table {
    pub(crate) entries: Vec<Option<Entry>>,
}

// A table is seen as its places in their order, each with its entry or none.
impl Model for Table {
    ghost use Rattle.std.specs.Prelude.{List, Option};
    ghost use Rattle.cache.specs.declared.entries.Entry.{Entry};

    ghost Value = { List (Option Entry) };

    ghost view = { λ t. t.entries.items };
}
