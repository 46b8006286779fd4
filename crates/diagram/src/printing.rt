// Edges and refusals as text.
ghost use Rattle.std.specs.Prelude.{◌≡◌, ◌≤◌, true, Some};
ghost use Rattle.std.specs.Fmt.{WritesOnOk};
ghost use Rattle.diagram.specs.Words.{letters_of, spells};
ghost use Rattle.diagram.specs.Printed.{digits_text, mark_text, word_text, target_text, edge_text, refusal_text};

use crate::edges::{Edge, Target, Word};
use crate::refusals::Refusal;
use std::error::Error;
use std::fmt;

impl fmt::Display for Target {
    ghost output = { λ t. Some (target_text t) };

    fn fmt<W: fmt::Write>(&self, f: &mut fmt::Formatter<W>) -> fmt::Result {
        match self {
            Target::Zero => f.write_str("0"),
            Target::One => f.write_str("1"),
            Target::Diamond(number) => write!(f, "d{number}"),
        }
    }
}

// Writes the digits of a word one by one, the topmost letter first: a writer that has no room for all of them has taken those that it had room for.
fn write_digits<W: fmt::Write>(f: &mut fmt::Formatter<W>, word: Word) -> fmt::Result
    requires short { word.length ≤ 20 }
    requires letters { spells word.length word.digits ≡ true }
    ensures { WritesOnOk W.Write.write_str_gives f.old result (digits_text (letters_of word.length word.digits)) f.new }
{
    match word.peel() {
        Some((letter, below)) => {
            f.write(u64::from(letter))?;
            write_digits(f, below)
        }
        None => Ok(()),
    }
}

// The digits of a word, a point if it has none, or `?` if it is no word of at most 20 letters.
impl fmt::Display for Word {
    ghost output = { λ w. Some (word_text w) };

    fn fmt<W: fmt::Write>(&self, f: &mut fmt::Formatter<W>) -> fmt::Result {
        if !self.is_spelled() {
            return f.write_str("?");
        }
        if self.length == 0 {
            return f.write_str(".");
        }
        write_digits(f, *self)
    }
}

// How an edge's mark is written; the library writes signs of numbers only.
fn mark(negated: bool) -> &'static str
    ensures { result.now ≡ mark_text negated }
{
    if negated { "-" } else { "+" }
}

impl fmt::Display for Edge {
    ghost output = { λ e. Some (edge_text e) };

    fn fmt<W: fmt::Write>(&self, f: &mut fmt::Formatter<W>) -> fmt::Result {
        write!(f, "{} {} {}", mark(self.negated), self.word, self.target)
    }
}

impl fmt::Display for Refusal {
    ghost output = { λ r. Some (refusal_text r) };

    fn fmt<W: fmt::Write>(&self, f: &mut fmt::Formatter<W>) -> fmt::Result {
        write!(f, "refusal {}", self.number())
    }
}

impl Error for Refusal {}
