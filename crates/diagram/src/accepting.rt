// Which edges a dialect accepts among some diamonds.
ghost use Rattle.std.specs.Prelude.{◌≡◌, ◌+◌, ◌*◌, ◌^◌, ◌<◌, ◌≤◌, true, false, not, length, if◌then◌else◌, nat_lt};
ghost use Rattle.diagram.specs.Rules.{arity as marks_of};
ghost use Rattle.diagram.specs.Words.{letters_of};
ghost use Rattle.diagram.specs.Edges.{Store, diamond_rule, foot as foot_of};
ghost use Rattle.diagram.specs.Acceptance.{usual, well_spelled};
ghost use Rattle.diagram.specs.Records.{target_of, target_arity, arity_in, stands_in, spelled_edge, accepted_in, constant_record, halves_on, letter_chosen};

use crate::edges::{Diamond, Edge, Target, Word};
use crate::letters::Letter;
use crate::meanings::Meaning;

// The arity of a target among some diamonds; the edges of a diamond go to diamonds before it, so the slice is cut at its number.
fn target_arity(diamonds: &[Diamond], target: Target) -> u32
    ensures value { result ≡ target_arity diamonds.now target }
    ensures bound { result ≤ 256 * length diamonds.now }
    ensures small { result ≤ 2 ^ 24 }
{
    match target {
        Target::Diamond(k) if (k as usize) < diamonds.len() => {
            let low = diamonds[k as usize].low;
            1 + low.word.length as u32 + target_arity(&diamonds[0..k as usize], low.target)
        }
        _ => 0,
    }
}

// The arity of an edge: its length and the arity of its target.
pub fn arity(diamonds: &[Diamond], edge: Edge) -> u32
    ensures { result ≡ arity_in diamonds.now edge }
{
    edge.word.length as u32 + target_arity(diamonds, edge.target)
}

// Whether the target is a terminal or a diamond that stands.
fn stands(diamonds: &[Diamond], target: Target) -> bool
    ensures { result ≡ stands_in diamonds.now target }
{
    match target {
        Target::Diamond(k) => (k as usize) < diamonds.len(),
        _ => true,
    }
}

// Whether so many letters and the marks of the target are more than a rule may have.
fn too_long(length: u8, foot: u32) -> bool
    requires { foot ≤ 2 ^ 24 }
    ensures { result ≡ nat_lt 20 (length + foot) }
{
    length as u32 + foot > 20
}

impl Meaning {
    // The edge of `arity` marks with this value everywhere.
    pub fn constant(&self, arity: u8, value: bool) -> Edge
        ensures { result ≡ constant_record self.now arity value }
    {
        let word = Word {
            length: arity,
            digits: 0,
        };
        if self.negates {
            return Edge {
                negated: value,
                word,
                target: Target::Zero,
            };
        }
        Edge {
            negated: false,
            word,
            target: if value { Target::One } else { Target::Zero },
        }
    }

    // The low and the high half that a letter stands for, on an edge of `arity` marks.
    pub fn halves_on(&self, arity: u8, letter: Letter, edge: Edge) -> (Edge, Edge)
        ensures { result ≡ halves_on self.now arity letter edge }
    {
        match letter {
            Letter::U => (edge, edge),
            Letter::X => (edge, edge.flip()),
            Letter::C00 => (self.constant(arity, false), edge),
            Letter::C01 => (self.constant(arity, true), edge),
            Letter::C10 => (edge, self.constant(arity, false)),
            Letter::C11 => (edge, self.constant(arity, true)),
        }
    }

    // Whether mark and terminal suit the dialect: one that negates uses no terminal one, any other no mark.
    fn suits(&self, edge: Edge) -> bool
        ensures { result ≡ (if self.now.negates then usual (target_of edge.target) else not edge.negated) }
    {
        if self.negates {
            edge.target != Target::One
        } else {
            !edge.negated
        }
    }

    // Whether the letter on top of an unmarked edge of `arity` marks is the one that making chooses for the halves that it stands for.
    fn chooses(&self, arity: u8, letter: Letter, below: Edge) -> bool
        ensures { result ≡ letter_chosen self.now arity letter below }
    {
        let (low, high) = self.halves_on(arity, letter, below);
        self.letter_for(low, high) == Some(letter)
    }

    // Whether every letter of the edge is the one that making chooses on the unmarked edge below it; `foot` is the arity of its target.
    fn chooses_all(&self, edge: Edge, foot: u8) -> bool
        requires spelled { spelled_edge edge ≡ true }
        requires short { edge.word.length + foot ≤ 20 }
        ensures { (s : Store) → marks_of (foot_of (diamond_rule s) (target_of edge.target)) ≡ foot → result ≡ well_spelled self.now s (target_of edge.target) (letters_of edge.word.length edge.word.digits) }
    {
        match edge.below() {
            None => true,
            Some((letter, below)) => {
                self.chooses(below.word.length + foot, letter, below)
                    && self.chooses_all(below, foot)
            }
        }
    }

    // Whether the dialect accepts the edge among these diamonds.
    pub fn accepts(&self, diamonds: &[Diamond], edge: Edge) -> bool
        ensures { result ≡ accepted_in self.now diamonds.now edge }
    {
        if !stands(diamonds, edge.target) || !self.suits(edge) || !edge.word.is_spelled() {
            return false;
        }
        let foot = target_arity(diamonds, edge.target);
        if too_long(edge.word.length, foot) {
            return false;
        }
        self.chooses_all(edge, foot as u8)
    }
}
