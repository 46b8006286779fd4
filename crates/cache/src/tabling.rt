// Making, reading and writing tables.
ghost use Rattle.std.specs.Prelude.{◌≡◌, length, replicate, IfOk, Some, None, slice_index_or, slice_set};
ghost use Rattle.cache.specs.Entries.{edge_for};
ghost use Rattle.cache.specs.Tables.{place_among};

use crate::entries::{Entry, Key};
use crate::tables::Table;
use diagram::edges::Edge;
use std::alloc::{AllocError, Global};

impl Table {
    // A table of `size` places, all empty.
    pub fn new(heap: Global, size: usize) -> Result<Table, AllocError>
        ensures { IfOk result (λ t. t ≡ replicate size None) }
    {
        Ok(Table {
            entries: vec![in heap; None; size]?,
        })
    }

    // How many places the table has.
    pub fn size(&self) -> usize
        ensures { result ≡ length self.now }
    {
        self.entries.len()
    }

    // The places in order, each with an entry or none.
    pub fn as_slice(&self) -> &[Option<Entry>]
        ensures { result.now ≡ self.now }
    {
        self.entries.as_slice()
    }

    // The entry at a place; none past the end too.
    pub fn get(&self, place: usize) -> Option<Entry>
        ensures { result ≡ slice_index_or self.now place None }
    {
        *self.entries.get(place)?
    }

    // Puts an entry at a place; past the end nothing changes.
    pub fn put(&mut self, place: usize, entry: Entry)
        ensures { self.new ≡ slice_set self.old place (Some entry) }
    {
        if let Some(old) = self.entries.get_mut(place) {
            *old = Some(entry);
        }
    }

    // Empties every place.
    pub fn clear(&mut self)
        ensures { self.new ≡ replicate (length self.old) None }
    {
        self.entries.fill(None);
    }

    // The place of a number: its remainder by how many places there are; 0 if there are none.
    pub fn place_of(&self, number: usize) -> usize
        ensures { result ≡ place_among (length self.now) number }
    {
        number.checked_rem(self.size()).unwrap_or(0)
    }

    // The edge that a place has for a key.
    pub fn find_at(&self, place: usize, key: Key) -> Option<Edge>
        ensures { result ≡ edge_for key (slice_index_or self.now place None) }
    {
        key.edge_in(self.get(place))
    }

    // Puts the entry of a key and an edge at a place; past the end nothing changes.
    pub fn note_at(&mut self, place: usize, key: Key, edge: Edge)
        ensures { self.new ≡ slice_set self.old place (Some (record { key = key; edge = edge })) }
    {
        self.put(place, Entry { key, edge });
    }
}
