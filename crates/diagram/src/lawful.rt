// Whether a meaning is a lawful dialect's.
ghost use Rattle.std.specs.Prelude.{◌≡◌, true, ◌&&◌, if◌then◌else◌, None};
ghost use Rattle.diagram.specs.declared.letters.Letter.TheVariants.{U, X};
ghost use Rattle.diagram.specs.Dialects.{
  has_letter,
  answer_at,
  low_constant,
  high_constant,
  opposed,
  fits,
  turn,
  partners,
  every_look,
  same_answer,
  right_answer,
  right_look,
  lawful,
};

use crate::letters::{Letter, Look};
use crate::meanings::Meaning;

impl Look {
    // The value of the low half, where it is constant.
    fn low(self) -> Option<bool>
        ensures { result ≡ low_constant self }
    {
        match self {
            Look::ZeroOne | Look::ZeroOther => Some(false),
            Look::OneZero | Look::OneOther => Some(true),
            _ => None,
        }
    }

    // The value of the high half, where it is constant.
    fn high(self) -> Option<bool>
        ensures { result ≡ high_constant self }
    {
        match self {
            Look::OneZero | Look::OtherZero => Some(false),
            Look::ZeroOne | Look::OtherOne => Some(true),
            _ => None,
        }
    }

    // Whether the halves are each other's negation.
    fn is_opposed(self) -> bool
        ensures { result ≡ opposed self }
    {
        matches!(self, Look::ZeroOne | Look::OneZero | Look::Opposite)
    }

    // The look of both halves negated.
    fn turned(self) -> Look
        ensures { result ≡ turn self }
    {
        match self {
            Look::ZeroOne => Look::OneZero,
            Look::OneZero => Look::ZeroOne,
            Look::ZeroOther => Look::OneOther,
            Look::OneOther => Look::ZeroOther,
            Look::OtherZero => Look::OtherOne,
            Look::OtherOne => Look::OtherZero,
            Look::Opposite => Look::Opposite,
            Look::Plain => Look::Plain,
        }
    }
}

impl Meaning {
    // Whether the dialect has the letter.
    pub fn has(&self, letter: Letter) -> bool
        ensures { result ≡ has_letter self.now letter }
    {
        match letter {
            Letter::U => self.letters.u,
            Letter::X => self.letters.x,
            Letter::C00 => self.letters.c00,
            Letter::C01 => self.letters.c01,
            Letter::C10 => self.letters.c10,
            Letter::C11 => self.letters.c11,
        }
    }

    // Whether the letter can stand for two halves with this look.
    fn fits(&self, letter: Letter, look: Look) -> bool
        ensures { result ≡ fits self.now letter look }
    {
        match letter {
            Letter::U => false,
            Letter::X => self.negates && look.is_opposed(),
            Letter::C00 => look.low() == Some(false),
            Letter::C01 => look.low() == Some(true),
            Letter::C10 => look.high() == Some(false),
            Letter::C11 => look.high() == Some(true),
        }
    }

    // Whether the dialect has the letter and it fits.
    fn offers(&self, letter: Letter, look: Look) -> bool
        ensures { result ≡ (has_letter self.now letter && fits self.now letter look) }
    {
        self.has(letter) && self.fits(letter, look)
    }

    // Whether no letter of the dialect fits.
    fn offers_none(&self, look: Look) -> bool
        ensures { result ≡ right_answer self.now look None }
    {
        Letter::ALL.iter().all(|&letter| !self.offers(letter, look))
    }

    // Whether the answer at the look is a letter on offer or, where none is, none.
    fn answers_rightly(&self, look: Look) -> bool
        ensures { result ≡ right_answer self.now look (answer_at self.now look) }
    {
        match self.answer(look) {
            Some(letter) => self.offers(letter, look),
            None => self.offers_none(look),
        }
    }

    // Whether a dialect that negates answers the look of both halves negated by the partner.
    fn turns_rightly(&self, look: Look) -> bool
        ensures { result ≡ (if self.now.negates then same_answer (answer_at self.now (turn look)) (partners (answer_at self.now look)) else true) }
    {
        !self.negates || self.answer(look.turned()) == self.answer(look).map(Letter::partner)
    }

    // Whether the look is answered as the laws ask.
    fn right_look(&self, look: Look) -> bool
        ensures { result ≡ right_look self.now look }
    {
        self.answers_rightly(look) && self.turns_rightly(look)
    }

    // Whether every look is.
    fn right_looks(&self) -> bool
        ensures { result ≡ every_look (right_look self.now) }
    {
        Look::ALL.iter().all(|&look| self.right_look(look))
    }

    // Whether the dialect has u, and x only if it negates.
    fn right_letters(&self) -> bool
        ensures { result ≡ (has_letter self.now U && (if has_letter self.now X then self.now.negates else true)) }
    {
        self.has(Letter::U) && (!self.has(Letter::X) || self.negates)
    }

    // Whether the meaning is a lawful dialect's.
    pub fn is_lawful(&self) -> bool
        ensures { result ≡ lawful self.now }
    {
        self.right_letters() && self.right_looks()
    }
}
