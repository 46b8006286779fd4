// Putting a diamond in front of the chain of its bucket, and taking it out again.
ghost use Rattle.std.specs.Prelude.{◌≡◌, ◌-◌, ◌<◌, [], ◌∷◌, ◌++◌, take, Some, None, vec_len, vec_capacity, slice_index_or, slice_set};
ghost use Rattle.unique.specs.Index.{bucket_of};

use crate::buckets::bucket;
use diagram::edges::Diamond;

// Puts a diamond, which gets the number k, in front of the chain of its bucket.
pub(crate) fn chain(
    heads: &mut Vec<Option<u16>>,
    links: &mut Vec<Option<u16>>,
    diamond: Diamond,
    k: u16,
)
    requires wide { vec_len heads.old ≡ 2039 }
    requires room { vec_len links.old < vec_capacity links.old }
    ensures heads { heads.new.items ≡ slice_set heads.old.items (bucket_of diamond) (Some k) }
    ensures links { links.new.items ≡ links.old.items ++ (slice_index_or heads.old.items (bucket_of diamond) None ∷ []) }
    ensures wide { vec_len heads.new ≡ 2039 }
    ensures room { vec_capacity links.new ≡ vec_capacity links.old }
{
    let b = bucket(diamond);
    links.push_reserved(heads[b]);
    heads[b] = Some(k);
}

// Takes the newest diamond out of the chain of its bucket, in front of which it is.
pub(crate) fn unchain(heads: &mut Vec<Option<u16>>, links: &mut Vec<Option<u16>>, diamond: Diamond)
    requires wide { vec_len heads.old ≡ 2039 }
    requires some { 0 < vec_len links.old }
    ensures heads { heads.new.items ≡ slice_set heads.old.items (bucket_of diamond) (slice_index_or links.old.items (vec_len links.old - 1) None) }
    ensures links { links.new.items ≡ take (vec_len links.old - 1) links.old.items }
    ensures wide { vec_len heads.new ≡ 2039 }
    ensures room { vec_capacity links.new ≡ vec_capacity links.old }
{
    let last = links.len() - 1;
    heads[bucket(diamond)] = links[last];
    links.truncate(last);
}
