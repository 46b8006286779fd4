// Combinations of unmarked edges: in a dialect that negates, every combination is one of these, or its negation.
ghost use Rattle.std.specs.Prelude.{◌≡◌};
ghost use Rattle.diagram.specs.Dialects.{flips};
ghost use Rattle.basics.specs.Plain.{unmarked, turned, bits, plain_mark, plain_value, plain_key};

use crate::settling::connect;
use cache::entries::Key;
use diagram::edges::Edge;

// The edge without its mark.
pub fn unmarked(edge: Edge) -> Edge
    ensures { result ≡ unmarked edge }
{
    Edge {
        negated: false,
        ..edge
    }
}

// The edge, with the other mark where `negated` holds.
pub fn turned(edge: Edge, negated: bool) -> Edge
    ensures { result ≡ turned negated edge }
{
    if negated { edge.flip() } else { edge }
}

// The value, reversed where `negated` holds.
fn reversed(negated: bool, value: bool) -> bool
    ensures { result ≡ flips negated value }
{
    value != negated
}

// Whether the combination is 1 where both unmarked edges are 0.
fn plain_mark(key: Key) -> bool
    ensures { result ≡ plain_mark key }
{
    connect(key.connective, key.left.negated, key.right.negated)
}

// The value of the combination where the unmarked edges have these values, reversed if it is 1 where both are 0.
fn plain_value(key: Key, x: bool, y: bool) -> bool
    ensures { result ≡ plain_value key x y }
{
    let left = reversed(key.left.negated, x);
    let right = reversed(key.right.negated, y);
    reversed(plain_mark(key), connect(key.connective, left, right))
}

// The connective with the value 0 at (0,0) and these at (0,1), (1,0) and (1,1).
fn bits(p: bool, q: bool, r: bool) -> u8
    ensures { result ≡ bits p q r }
{
    2 * u8::from(p) + 4 * u8::from(q) + 8 * u8::from(r)
}

// A combination of unmarked edges, and whether the one that was asked for is its negation.
#[derive(Clone, Copy, PartialEq, Eq)]
pub struct Plain {
    pub key: Key,
    pub negated: bool,
}

impl Plain {
    // The combination of unmarked edges that this one is, or is the negation of.
    pub fn of(key: Key) -> Plain
        ensures { result ≡ record { key = plain_key key; negated = plain_mark key } }
    {
        let p = plain_value(key, false, true);
        let q = plain_value(key, true, false);
        let r = plain_value(key, true, true);
        Plain {
            key: Key {
                connective: bits(p, q, r),
                left: unmarked(key.left),
                right: unmarked(key.right),
            },
            negated: plain_mark(key),
        }
    }

    // The edge of the combination that was asked for, from that of the unmarked edges.
    pub fn restore(self, edge: Edge) -> Edge
        ensures { result ≡ turned self.negated edge }
    {
        turned(edge, self.negated)
    }
}
