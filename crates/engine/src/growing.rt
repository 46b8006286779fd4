// Diamonds looked up and added, and edges made from two halves.
ghost use Rattle.std.specs.Prelude.{◌≡◌, ◌<◌, ◌≤◌};
ghost use Rattle.diagram.specs.Rules.{variable};
ghost use Rattle.diagram.specs.Making.{add, make, diamond_edge};
ghost use Rattle.diagram.specs.Records.{edge_of, store_of, edge_record};
ghost use Rattle.engine.specs.States.{HalvesFit, Joins};
ghost use Rattle.engine.specs.Steps.{kept, inserted};

use crate::states::State;
use diagram::edges::{Diamond, Edge, Target, Word};
use diagram::letters::Letter;
use diagram::refusals::Refusal;

// The edge to the diamond k.
fn edge_to(k: usize) -> Edge
    requires { k < 1024 }
    ensures { result ≡ edge_record (diamond_edge k) }
{
    Edge {
        negated: false,
        word: Word {
            length: 0,
            digits: 0,
        },
        target: Target::Diamond(k as u16),
    }
}

impl State {
    // The edge to a diamond: the one that stands, or a new one under the next number.
    pub(crate) fn add(&mut self, diamond: Diamond) -> Result<Edge, Refusal>
        requires { Joins self.old.profile.meaning self.old.diamonds diamond }
        ensures outcome { (result, self.new.diamonds) ≡ kept self.old.diamonds (add (store_of self.old.diamonds) (edge_of diamond.low) (edge_of diamond.high)) }
        ensures profile { self.new.profile ≡ self.old.profile }
        ensures table { self.new.table ≡ self.old.table }
    {
        let k = match self.diamonds.number(diamond) {
            Some(k) => k,
            None => self.diamonds.push(diamond).ok_or(Refusal::Full)?,
        };
        Ok(edge_to(k))
    }

    // The edge made from two halves: by the dialect's letter, or else by a diamond.
    pub(crate) fn make(&mut self, low: Edge, high: Edge) -> Result<Edge, Refusal>
        requires { HalvesFit self.old.profile.meaning self.old.diamonds low high }
        ensures outcome { (result, self.new.diamonds) ≡ kept self.old.diamonds (make self.old.profile.meaning (store_of self.old.diamonds) (edge_of low) (edge_of high)) }
        ensures profile { self.new.profile ≡ self.old.profile }
        ensures table { self.new.table ≡ self.old.table }
    {
        if let Some(letter) = self.profile.meaning().letter_for(low, high) {
            return Ok(letter.source(low, high).with_letter(letter).unwrap());
        }
        if low.negated {
            let edge = self.add(Diamond {
                low: low.flip(),
                high: high.flip(),
            })?;
            return Ok(edge.flip());
        }
        self.add(Diamond { low, high })
    }

    // Mark i of n marks.
    pub(crate) fn insert_variable(&mut self, n: u8, i: u8) -> Result<Edge, Refusal>
        requires below { i < n }
        requires short { n ≤ 20 }
        ensures outcome { (result, self.new.diamonds) ≡ inserted self.old.profile.meaning self.old.diamonds (variable n i) }
        ensures profile { self.new.profile ≡ self.old.profile }
        ensures table { self.new.table ≡ self.old.table }
    {
        if i == 0 {
            let meaning = self.profile.meaning();
            let low = meaning.constant(n - 1, false);
            let high = meaning.constant(n - 1, true);
            return self.make(low, high);
        }
        let edge = self.insert_variable(n - 1, i - 1)?;
        Ok(edge.with_letter(Letter::U).unwrap())
    }
}
