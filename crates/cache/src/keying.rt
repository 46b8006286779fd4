// Keys compared, and entries read.
ghost use Rattle.std.specs.Prelude.{◌≡◌};
ghost use Rattle.cache.specs.Entries.{same_key, edge_for};

use crate::entries::{Entry, Key};
use diagram::edges::Edge;

impl Key {
    // Whether the two keys have the same connective and the same two edges: `==`, promised to be the test in specs/.
    pub fn same(self, other: Key) -> bool
        ensures { result ≡ same_key self other }
    {
        self == other
    }

    // The edge that a place has for the key: that of its entry, if it is an entry of this key.
    pub fn edge_in(self, place: Option<Entry>) -> Option<Edge>
        ensures { result ≡ edge_for self place }
    {
        place
            .filter(|entry| entry.key.same(self))
            .map(|entry| entry.edge)
    }
}
