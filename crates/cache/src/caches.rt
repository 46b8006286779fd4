// The open interface of computed caches.
ghost use Rattle.std.specs.Prelude.{◌≡◌, ℕ, ◌<◌, Bool, length, replicate, Some, None, Option};
ghost use Rattle.diagram.specs.declared.edges.Edge.{Edge};
ghost use Rattle.cache.specs.declared.entries.Key.{Key};
ghost use Rattle.cache.specs.declared.tables.Table.{Table};
ghost use Rattle.cache.specs.Tables.{Stands};
ghost use Rattle.cache.specs.Caches.{Noted};

use crate::entries::Key;
use crate::tables::Table;
use diagram::edges::Edge;

// A way to find and note entries in a table. The entries stand in the table, which its owner hands to every call;
// what else a cache needs, as the state of a policy, is its own.
pub trait Cache {
    // Whether a key gives its edge as soon as it is noted.
    const KEEPS: bool;

    // the same, as clauses name it
    ghost KEEPS: { Bool };

    // How many places the cache wants in its table.
    ghost wants: { Self → ℕ };

    // The map: the edge that the cache gives for a key with a table, or none.
    ghost held: { Self → Table → Key → Option Edge };

    // How many places the table of this cache is to have.
    fn places(&self) -> usize
        ensures { result ≡ wants self.now };

    // What the map gives; the map stays.
    fn find(&mut self, table: &Table, key: Key) -> Option<Edge>
        ensures value { result ≡ held self.old table.now key }
        ensures same { (k : Key) → held self.new table.now k ≡ held self.old table.now k }
        ensures places { wants self.new ≡ wants self.old };

    // Notes an edge for a key; other keys may be lost.
    fn note(&mut self, table: &mut Table, key: Key, edge: Edge)
        ensures noted { Noted KEEPS table.old table.new (held self.old table.old) (held self.new table.new) key edge }
        ensures places { wants self.new ≡ wants self.old };

    // Empties the table, and with it the map, since what the map gives stands in the table. A cache with more to forget has a body of its own.
    fn forget(&mut self, table: &mut Table)
        ensures empty { table.new ≡ replicate (length table.old) None }
        ensures none { (k : Key) → held self.new table.new k ≡ None }
        ensures places { wants self.new ≡ wants self.old }
    {
        table.clear();
    }

    // What the cache gives stands in the table.
    ghost honest: { (c : Self) (t : Table) (k : Key) (e : Edge) → held c t k ≡ Some e → Stands t k e };

    // Every cache wants a place.
    ghost roomy: { (c : Self) → 0 < wants c };
}

// Whether a key gives its edge in such a cache as soon as it is noted.
pub fn keeps<C: Cache>() -> bool
    ensures { result ≡ C.Cache.KEEPS }
{
    C::KEEPS
}
