// The open interface of dialects.
ghost use Rattle.std.specs.Prelude.{◌≡◌, ℕ, Bool, true};
ghost use Rattle.diagram.specs.declared.meanings.Meaning.{Meaning};
ghost use Rattle.diagram.specs.Dialects.{has_letter, answer_at, lawful};

use diagram::letters::{Letter, Look};

// A dialect: its constants, its letters and its answers. Its meaning is all of that as data, and every dialect is lawful.
pub trait Dialect {
    // The code that files name the dialect by.
    const CODE: u8;

    // the same, as clauses name it
    ghost CODE: { ℕ };

    // Whether edges may be negated.
    const NEGATES: bool;

    // the same, as clauses name it
    ghost NEGATES: { Bool };

    ghost meaning: { Meaning };

    // Whether the dialect has the letter.
    fn has(letter: Letter) -> bool
        ensures { result ≡ has_letter meaning letter };

    // The letter that stands for two halves with this look, if there is one.
    fn answer(look: Look) -> Option<Letter>
        ensures { result ≡ answer_at meaning look };

    // The constants are those of the meaning.
    ghost coded: { meaning.code ≡ CODE };

    ghost negating: { meaning.negates ≡ NEGATES };

    ghost sound: { lawful meaning ≡ true };
}
