// A cache that may hide what it noted.
ghost use Rattle.std.specs.Prelude.{◌≡◌, false, ◌||◌, length, Some, slice_set, ◌==◌};
ghost use Rattle.shy.specs.Shy.{shy_place, shy_held};
ghost use Rattle.cache.specs.Placing.{given_at, given_stands};
ghost use Rattle.shy.specs.Hidden.{shown};
ghost use Rattle.std.proofs.Common.{rules};

use cache::caches::Cache;
use cache::entries::Key;
use cache::tables::Table;
use diagram::edges::Edge;

// Open, it finds a key at its place. Once a key of the connective `closer` is noted it is shut: it finds nothing, though the entries stand, until it forgets.
#[derive(Drop)]
pub struct Shy {
    closer: u8,
    // a flag, since `closer` is needed in both states
    shut: bool,
}

// The place of a key: that of its connective and the lengths of its edges, added.
fn shy_place(table: &Table, key: Key) -> usize
    ensures { result ≡ shy_place (length table.now) key }
{
    table.place_of(
        key.connective as usize + key.left.word.length as usize + key.right.word.length as usize,
    )
}

// Puts the entry of a key and an edge at the key's place.
fn put_at_place(table: &mut Table, key: Key, edge: Edge)
    ensures { table.new ≡ slice_set table.old (shy_place (length table.old) key) (Some (record { key = key; edge = edge })) }
{
    let place = shy_place(table, key);
    table.note_at(place, key, edge);
}

impl Shy {
    // An open cache with the connective that shuts it.
    pub fn new(closer: u8) -> Shy
        ensures { result ≡ record { closer = closer; shut = false } }
    {
        Shy {
            closer,
            shut: false,
        }
    }

    // Whether the cache is shut once a key of this connective is noted.
    fn shut_after(&self, connective: u8) -> bool
        ensures { result ≡ (self.now.shut || connective == self.now.closer) }
    {
        self.shut || connective == self.closer
    }
}

impl Cache for Shy {
    const KEEPS: bool = false;

    ghost KEEPS = { false };

    ghost wants = { λ _. 7 };

    ghost held = { λ c t k. shy_held c t k };

    ghost honest = { λ c t k e h. given_stands shy_place t k e (shown c.shut (given_at shy_place t k) e h) };

    ghost roomy = { Prim.search rules };

    fn places(&self) -> usize {
        7
    }

    fn find(&mut self, table: &Table, key: Key) -> Option<Edge> {
        if self.shut {
            None
        } else {
            table.find_at(shy_place(table, key), key)
        }
    }

    fn note(&mut self, table: &mut Table, key: Key, edge: Edge) {
        self.shut = self.shut_after(key.connective);
        put_at_place(table, key, edge);
    }

    fn forget(&mut self, table: &mut Table) {
        self.shut = false;
        table.clear();
    }
}
