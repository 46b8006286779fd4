// The bucket of a diamond.
ghost use Rattle.std.specs.Prelude.{◌≡◌, ◌<◌, ◌≤◌};
ghost use Rattle.unique.specs.Index.{mark_number, edge_number, bucket_of};

use diagram::edges::{Diamond, Edge};

// How many buckets there are.
pub(crate) const BUCKETS: usize = 2039;

// The mark of an edge as a number.
fn mark_number(negated: bool) -> u64
    ensures { result ≡ mark_number negated }
{
    if negated { 1013 } else { 0 }
}

// A number worked out from all parts of an edge.
fn edge_number(edge: Edge) -> u64
    ensures value { result ≡ edge_number edge }
    ensures bound { result ≤ 134000000000 }
{
    edge.word.digits % 65521
        + 31 * edge.target.number() as u64
        + 353 * edge.word.length as u64
        + mark_number(edge.negated)
}

// The bucket of a diamond.
pub(crate) fn bucket(diamond: Diamond) -> usize
    ensures value { result ≡ bucket_of diamond }
    ensures bound { result < 2039 }
{
    ((edge_number(diamond.low) + 1260 * edge_number(diamond.high)) % BUCKETS as u64) as usize
}
