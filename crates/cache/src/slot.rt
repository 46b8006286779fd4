// The cache in which each key has one place; keys that share a place take it from each other.
ghost use Rattle.std.specs.Prelude.{◌≡◌, true, length, Some, slice_set};
ghost use Rattle.cache.specs.Slots.{slot_place, slot_held};
ghost use Rattle.cache.specs.Placing.{given_stands};
ghost use Rattle.std.proofs.Common.{rules};

use crate::caches::Cache;
use crate::entries::Key;
use crate::tables::Table;
use diagram::edges::Edge;

// The place of a key: that of its connective and target numbers, added.
fn slot_place(table: &Table, key: Key) -> usize
    ensures { result ≡ slot_place (length table.now) key }
{
    table.place_of(
        key.connective as usize
            + key.left.target.number() as usize
            + key.right.target.number() as usize,
    )
}

// Puts the entry of a key and an edge at the key's place.
fn put_at_place(table: &mut Table, key: Key, edge: Edge)
    ensures { table.new ≡ slice_set table.old (slot_place (length table.old) key) (Some (record { key = key; edge = edge })) }
{
    let place = slot_place(table, key);
    table.note_at(place, key, edge);
}

// Finds a key at its place, and notes it there over whatever stood there.
#[derive(Clone, Copy)]
pub struct Slot;

impl Cache for Slot {
    const KEEPS: bool = true;

    ghost KEEPS = { true };

    ghost wants = { λ _. 256 };

    ghost held = { λ _ t k. slot_held t k };

    ghost honest = { λ c t k e h. given_stands slot_place t k e h };

    ghost roomy = { Prim.search rules };

    fn places(&self) -> usize {
        256
    }

    fn find(&mut self, table: &Table, key: Key) -> Option<Edge> {
        table.find_at(slot_place(table, key), key)
    }

    fn note(&mut self, table: &mut Table, key: Key, edge: Edge) {
        put_at_place(table, key, edge);
    }
}
