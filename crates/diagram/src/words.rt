// Words: the only octal arithmetic there is. A word is a numeral of `length` octal digits, the topmost letter first.
ghost use Rattle.std.specs.Prelude.{◌≡◌, ◌^◌, ◌<◌, ◌≤◌, ◌&&◌, ◌∷◌, IfSome, nat_le};
ghost use Rattle.diagram.specs.Words.{letters_of, spells, peeled, pushed};

use crate::edges::Word;
use crate::letters::Letter;

// 8 to the power of n, with the bounds that words need.
fn power(n: u8) -> u64
    requires { n ≤ 20 }
    ensures value { result ≡ 8 ^ n }
    ensures low { 0 < result }
    ensures high { result ≤ 2 ^ 60 }
{
    8u64.pow(n as u32)
}

impl Word {
    // The topmost letter and the word below it.
    pub fn peel(self) -> Option<(Letter, Word)>
        ensures value { result ≡ peeled self }
        ensures letters { IfSome result (λ p. letters_of self.length self.digits ≡ p.0 ∷ letters_of p.1.length p.1.digits) }
        ensures rest { IfSome result (λ p. spells self.length self.digits ≡ spells p.1.length p.1.digits) }
        ensures shorter { IfSome result (λ p. p.1.length < self.length) }
    {
        if self.length == 0 || self.length > 20 {
            return None;
        }
        let length = self.length - 1;
        let unit = power(length);
        let letter = Letter::try_from(self.digits / unit).ok()?;
        let digits = self.digits % unit;
        Some((letter, Word { length, digits }))
    }

    // The word with a letter more on top.
    pub fn push(self, letter: Letter) -> Option<Word>
        ensures value { result ≡ pushed self letter }
        ensures letters { IfSome result (λ w. letters_of w.length w.digits ≡ letter ∷ letters_of self.length self.digits) }
        ensures rest { IfSome result (λ w. spells w.length w.digits ≡ spells self.length self.digits) }
    {
        if self.length >= 20 {
            return None;
        }
        let unit = power(self.length);
        if self.digits >= unit {
            return None;
        }
        Some(Word {
            length: self.length + 1,
            digits: u64::from(letter) * unit + self.digits,
        })
    }

    // Whether the word has at most 20 digits and each is a letter.
    pub fn is_spelled(self) -> bool
        ensures { result ≡ (nat_le self.length 20 && spells self.length self.digits) }
    {
        if self.length == 0 {
            return self.digits == 0;
        }
        let Some((_, below)) = self.peel() else {
            return false;
        };
        below.is_spelled()
    }
}
