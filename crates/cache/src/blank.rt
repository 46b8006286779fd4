// The cache that holds nothing.
ghost use Rattle.std.specs.Prelude.{◌≡◌, false, None};
ghost use Rattle.std.proofs.Common.{rules};

use crate::caches::Cache;
use crate::entries::Key;
use crate::tables::Table;
use diagram::edges::Edge;

// Finds nothing and notes nothing, so every combination is worked out again.
#[derive(Clone, Copy)]
pub struct Blank;

impl Cache for Blank {
    const KEEPS: bool = false;

    ghost KEEPS = { false };

    ghost wants = { λ _. 1 };

    ghost held = { λ _ _ _. None };

    ghost honest = { Prim.search rules };

    ghost roomy = { Prim.search rules };

    fn places(&self) -> usize {
        1
    }

    fn find(&mut self, _table: &Table, _key: Key) -> Option<Edge> {
        None
    }

    fn note(&mut self, _table: &mut Table, _key: Key, _edge: Edge) {}
}
