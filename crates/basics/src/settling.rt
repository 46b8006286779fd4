// Combinations that are settled without halves.
ghost use Rattle.std.specs.Prelude.{◌≡◌};
ghost use Rattle.diagram.specs.Rules.{worth, connective};
ghost use Rattle.basics.specs.Settled.{by_one, settled};

use cache::entries::Key;
use diagram::edges::Edge;
use diagram::meanings::Meaning;

// The worth of the bit that is a connective's value at (a, b); the four lines are the definition, a shift would have to be worked out.
fn worth(a: bool, b: bool) -> u8
    ensures { result ≡ worth a b }
{
    match (a, b) {
        (false, false) => 1,
        (false, true) => 2,
        (true, false) => 4,
        (true, true) => 8,
    }
}

// The value of a connective at (a, b).
pub(crate) fn connect(number: u8, a: bool, b: bool) -> bool
    ensures { result ≡ connective number a b }
{
    number / worth(a, b) % 2 == 1
}

// The edge of n marks that is `zero` where the given one is 0, and `one` where that is 1; none where the dialect would have to negate and does not.
fn by_one(meaning: Meaning, zero: bool, one: bool, edge: Edge, n: u8) -> Option<Edge>
    ensures { result ≡ by_one meaning zero one edge n }
{
    match (zero, one) {
        (false, true) => Some(edge),
        (true, false) if meaning.negates => Some(edge.flip()),
        (true, false) => None,
        (value, _) => Some(meaning.constant(n, value)),
    }
}

// The edge of a combination of two edges of n marks, where constant, equal or opposite edges settle it.
pub fn settled(meaning: Meaning, key: Key, n: u8) -> Option<Edge>
    ensures { result ≡ settled meaning key n }
{
    let (a, b) = (key.left, key.right);
    let op = |x, y| connect(key.connective, x, y);
    match (a.constant_value(), b.constant_value()) {
        (Some(v), Some(w)) => Some(meaning.constant(n, op(v, w))),
        (Some(v), None) => by_one(meaning, op(v, false), op(v, true), b, n),
        (None, Some(w)) => by_one(meaning, op(false, w), op(true, w), a, n),
        (None, None) if a.same(b) => by_one(meaning, op(false, false), op(true, true), a, n),
        (None, None) if a.same(b.flip()) => by_one(meaning, op(false, true), op(true, false), a, n),
        (None, None) => None,
    }
}
