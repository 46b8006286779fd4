// What making an edge from two halves is made of: a letter set on an edge, and a diamond looked up.
ghost use Rattle.std.specs.Prelude.{◌≡◌, ◌<◌, IfSome};
ghost use Rattle.diagram.specs.Making.{source};
ghost use Rattle.diagram.specs.Records.{same_diamond_record, number_of, with_letter, edge_below};

use crate::edges::{Diamond, Edge};
use crate::letters::Letter;

impl Letter {
    // The half that the letter is set on.
    pub fn source(self, low: Edge, high: Edge) -> Edge
        ensures { result ≡ source self low high }
    {
        match self {
            Letter::C00 | Letter::C01 => high,
            _ => low,
        }
    }
}

impl Edge {
    // The edge with a letter set on it: under a mark the letter's partner is written.
    pub fn with_letter(self, letter: Letter) -> Option<Edge>
        ensures { result ≡ with_letter letter self }
    {
        let written = if self.negated {
            letter.partner()
        } else {
            letter
        };
        let word = self.word.push(written)?;
        Some(Edge { word, ..self })
    }

    // The topmost letter, and the unmarked edge below it.
    pub fn below(self) -> Option<(Letter, Edge)>
        ensures value { result ≡ edge_below self }
        ensures shorter { IfSome result (λ p. p.1.word.length < self.word.length) }
    {
        let (letter, word) = self.word.peel()?;
        let below = Edge {
            negated: false,
            word,
            ..self
        };
        Some((letter, below))
    }
}

impl Diamond {
    // Whether the two diamonds have the same low and the same high edge: `==`, promised to be the test in specs/.
    pub fn same(self, other: Diamond) -> bool
        ensures { result ≡ same_diamond_record self other }
    {
        self == other
    }

    // The number of the diamond among some, if it stands there.
    pub fn number_in(self, diamonds: &[Diamond]) -> Option<usize>
        ensures { result ≡ number_of diamonds.now self }
    {
        diamonds.iter().rposition(|d| d.same(self))
    }
}
