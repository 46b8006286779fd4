// The halves of an edge, and its values. What is true of an edge among a state's diamonds is a `requires`: a struct with a reference to the state would have to say in each clause at which moment the state is meant.
ghost use Rattle.std.specs.Prelude.{◌≡◌, ◌-◌, ◌%◌, ◌<◌, true, if◌then◌else◌, ◌==◌};
ghost use Rattle.diagram.specs.Rules.{value};
ghost use Rattle.diagram.specs.Edges.{rule_of};
ghost use Rattle.diagram.specs.Making.{low_upright, high_upright, low_half, high_half};
ghost use Rattle.diagram.specs.Records.{edge_of, store_of, spelled_edge};
ghost use Rattle.engine.specs.States.{EdgeOfArity, end_value};

use crate::states::State;
use basics::plain::turned;
use diagram::edges::{Edge, Target};

// The high one of two halves, or the low one, as the first mark of an assignment has it.
fn pick(halves: (Edge, Edge), high: bool) -> Edge
    ensures { result ≡ (if high then halves.1 else halves.0) }
{
    if high { halves.1 } else { halves.0 }
}

// The value of an edge of no mark.
fn end_value(edge: Edge) -> bool
    ensures { result ≡ end_value edge.negated edge.target }
{
    match edge.target {
        Target::One => !edge.negated,
        _ => edge.negated,
    }
}

// The first mark of an assignment.
fn first_mark(assignment: u32) -> bool
    ensures { result ≡ (assignment % 2 == 1) }
{
    assignment % 2 == 1
}

impl State {
    // The two halves of an unmarked edge of n marks, n not 0.
    fn upright_halves(&self, edge: Edge, n: u8) -> (Edge, Edge)
        requires edge { EdgeOfArity self.now.profile.meaning self.now.diamonds edge n }
        requires some { 0 < n }
        ensures spelled { (spelled_edge result.0 ≡ true) × (spelled_edge result.1 ≡ true) }
        ensures low { edge_of result.0 ≡ low_upright self.now.profile.meaning (store_of self.now.diamonds) (edge_of edge).word (edge_of edge).target }
        ensures high { edge_of result.1 ≡ high_upright self.now.profile.meaning (store_of self.now.diamonds) (edge_of edge).word (edge_of edge).target }
    {
        match edge.below() {
            Some((letter, below)) => self.profile.meaning().halves_on(n - 1, letter, below),
            None => match edge.target {
                Target::Diamond(k) => {
                    let diamond = self.diamonds.as_slice()[k as usize];
                    (diamond.low, diamond.high)
                }
                _ => (edge, edge),
            },
        }
    }

    // The two halves of an edge of n marks, n not 0.
    pub(crate) fn halves(&self, edge: Edge, n: u8) -> (Edge, Edge)
        requires edge { EdgeOfArity self.now.profile.meaning self.now.diamonds edge n }
        requires some { 0 < n }
        ensures edges { EdgeOfArity self.now.profile.meaning self.now.diamonds result.0 (n - 1) × EdgeOfArity self.now.profile.meaning self.now.diamonds result.1 (n - 1) }
        ensures low { edge_of result.0 ≡ low_half self.now.profile.meaning (store_of self.now.diamonds) (edge_of edge) }
        ensures high { edge_of result.1 ≡ high_half self.now.profile.meaning (store_of self.now.diamonds) (edge_of edge) }
    {
        let (low, high) = self.upright_halves(edge, n);
        (turned(low, edge.negated), turned(high, edge.negated))
    }

    // The value of an edge of n marks at an assignment.
    pub(crate) fn value(&self, edge: Edge, n: u8, assignment: u32) -> bool
        requires { EdgeOfArity self.now.profile.meaning self.now.diamonds edge n }
        ensures { result ≡ value (rule_of (store_of self.now.diamonds) (edge_of edge)) assignment }
    {
        if n == 0 {
            return end_value(edge);
        }
        let half = pick(self.halves(edge, n), first_mark(assignment));
        self.value(half, n - 1, assignment / 2)
    }
}
