// The letter for two halves.
ghost use Rattle.std.specs.Prelude.{◌≡◌};
ghost use Rattle.diagram.specs.Dialects.{answer_at};
ghost use Rattle.diagram.specs.Records.{same_record, other_mark, constant_of, letter_for};

use crate::edges::{Edge, Target};
use crate::letters::{Letter, Look};
use crate::meanings::Meaning;

impl Edge {
    // Whether the two edges have the same mark, length, word and target: `==`, promised to be the test in specs/.
    pub fn same(self, other: Edge) -> bool
        ensures { result ≡ same_record self other }
    {
        self == other
    }

    // The edge with the other mark.
    pub fn flip(self) -> Edge
        ensures { result ≡ other_mark self }
    {
        Edge {
            negated: !self.negated,
            ..self
        }
    }

    // The value that the edge is seen to have everywhere, if any: there is one where its letters are all u, so that its word is 0, and its target is a terminal.
    pub fn constant_value(self) -> Option<bool>
        ensures { result ≡ constant_of self }
    {
        match (self.target, self.negated) {
            _ if self.word.digits != 0 => None,
            (Target::Zero, negated) => Some(negated),
            (Target::One, negated) => Some(!negated),
            (Target::Diamond(_), _) => None,
        }
    }
}

impl Meaning {
    // The dialect's answer at a look.
    pub fn answer(&self, look: Look) -> Option<Letter>
        ensures { result ≡ answer_at self.now look }
    {
        match look {
            Look::ZeroOne => self.answers.zero_one,
            Look::OneZero => self.answers.one_zero,
            Look::ZeroOther => self.answers.zero_other,
            Look::OneOther => self.answers.one_other,
            Look::OtherZero => self.answers.other_zero,
            Look::OtherOne => self.answers.other_one,
            Look::Opposite => self.answers.opposite,
            Look::Plain => self.answers.plain,
        }
    }

    // The letter that stands for two halves, if any: u for equal ones, else the answer at their look.
    pub fn letter_for(&self, low: Edge, high: Edge) -> Option<Letter>
        ensures { result ≡ letter_for self.now low high }
    {
        let look = match (low.constant_value(), high.constant_value()) {
            _ if low.same(high) => return Some(Letter::U),
            (Some(false), Some(true)) => Look::ZeroOne,
            (Some(true), Some(false)) => Look::OneZero,
            (Some(false), None) => Look::ZeroOther,
            (Some(true), None) => Look::OneOther,
            (None, Some(false)) => Look::OtherZero,
            (None, Some(true)) => Look::OtherOne,
            (None, None) if self.negates && low.same(high.flip()) => Look::Opposite,
            _ => Look::Plain,
        };
        self.answer(look)
    }
}
