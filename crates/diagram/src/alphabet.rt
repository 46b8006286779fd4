// What a letter is written as, and its partner.
ghost use Rattle.std.specs.Prelude.{◌≡◌};
ghost use Rattle.std.specs.Result.{result_ok};
ghost use Rattle.diagram.specs.Letters.{letter_code, letter_with, partner};

use crate::letters::Letter;

impl Letter {
    // The letter that is written in its place under a mark.
    pub fn partner(self) -> Letter
        ensures { result ≡ partner self }
    {
        match self {
            Letter::U => Letter::U,
            Letter::X => Letter::X,
            Letter::C00 => Letter::C01,
            Letter::C01 => Letter::C00,
            Letter::C10 => Letter::C11,
            Letter::C11 => Letter::C10,
        }
    }
}

// The octal digit that stands for a letter.
impl From<Letter> for u64 {
    ghost from_gives = { λ letter digit. digit ≡ letter_code letter };

    fn from(letter: Letter) -> u64 {
        letter as u64
    }
}

// A number that is no letter's digit.
#[derive(Clone, Copy, Debug, PartialEq, Eq)]
pub struct NoLetter;

// The letter that a digit stands for.
impl TryFrom<u64> for Letter {
    type Error = NoLetter;

    ghost try_from_gives = { λ digit r. result_ok r ≡ letter_with digit };

    fn try_from(digit: u64) -> Result<Letter, NoLetter> {
        match digit {
            0 => Ok(Letter::U),
            1 => Ok(Letter::X),
            2 => Ok(Letter::C00),
            3 => Ok(Letter::C01),
            4 => Ok(Letter::C10),
            5 => Ok(Letter::C11),
            _ => Err(NoLetter),
        }
    }
}
