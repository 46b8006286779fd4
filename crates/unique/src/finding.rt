// Making a unique table, and looking diamonds up.
ghost use Rattle.std.specs.Prelude.{◌≡◌, ◌<◌, ◌≤◌, [], reverse, length, replicate, IfOk, None, vec_capacity, slice_index_or};
ghost use Rattle.diagram.specs.declared.edges.Diamond.{Diamond};
ghost use Rattle.diagram.specs.Records.{same_diamond_record, number_of};
ghost use Rattle.unique.specs.Index.{bucket_of, newest_in, links_of};

use crate::buckets::{BUCKETS, bucket};
use crate::tables::UniqueTable;
use diagram::edges::Diamond;
use std::alloc::{AllocError, Global};

// How many diamonds a table holds at most.
pub const ROOM: usize = 1024;

// An empty list with room for 1,024 elements.
fn reserved<T>(heap: Global) -> Result<Vec<T>, AllocError>
    ensures { IfOk result (λ v. (v.items ≡ []) × (1024 ≤ vec_capacity v)) }
{
    Vec::with_capacity(heap, ROOM)
}

// The heads of so many empty buckets.
fn no_heads(heap: Global, count: usize) -> Result<Vec<Option<u16>>, AllocError>
    ensures { IfOk result (λ v. v.items ≡ replicate count None) }
{
    Ok(vec![in heap; None; count]?)
}

impl UniqueTable {
    // An empty table, with room for 1,024 diamonds reserved.
    pub fn new(heap: Global) -> Result<UniqueTable, AllocError>
        ensures { IfOk result (λ t. t ≡ []) }
    {
        let diamonds = reserved(heap)?;
        let heads = no_heads(heap, BUCKETS)?;
        let links = reserved(heap)?;
        Ok(UniqueTable {
            diamonds,
            heads,
            links,
        })
    }

    // The diamonds, diamond k at place k.
    pub fn as_slice(&self) -> &[Diamond]
        ensures { result.now ≡ self.now }
    {
        self.diamonds.as_slice()
    }

    // How many diamonds there are.
    pub fn len(&self) -> usize
        ensures { result ≡ length self.now }
    {
        self.diamonds.len()
    }

    // The newest diamond in the bucket of a diamond.
    fn head(&self, diamond: Diamond) -> Option<u16>
        ensures { result ≡ newest_in (bucket_of diamond) (reverse self.now) }
    {
        self.heads[bucket(diamond)]
    }

    // The newest diamond before diamond k in its bucket.
    fn link(&self, k: u16) -> Option<u16>
        requires { k < length self.now }
        ensures { result ≡ slice_index_or (links_of (reverse self.now)) k None }
    {
        self.links[k as usize]
    }

    // Whether diamond k is this one.
    fn is_at(&self, k: u16, diamond: Diamond) -> bool
        requires { k < length self.now }
        ensures { (d : Diamond) → result ≡ same_diamond_record (slice_index_or self.now k d) diamond }
    {
        self.diamonds[k as usize].same(diamond)
    }

    // The number of a diamond, if it stands here.
    pub fn number(&self, diamond: Diamond) -> Option<usize>
        ensures { result ≡ number_of self.now diamond }
    {
        let mut next = self.head(diamond);
        while let Some(k) = next {
            if self.is_at(k, diamond) {
                return Some(k as usize);
            }
            next = self.link(k);
        }
        None
    }

    // Says, to whoever calls it, that there are at most 1,024 diamonds.
    pub fn law(&self)
        ensures { length self.now ≤ 1024 }
    {
        // a look at a field brings in what is true of every table
        let _ = &self.diamonds;
    }
}
