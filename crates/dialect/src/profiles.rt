// Dialects as values.
ghost use Rattle.std.specs.Prelude.{◌≡◌, true};
ghost use Rattle.std.specs.Option.{option_map};
ghost use Rattle.std.specs.Bool.{then_some};
ghost use Rattle.diagram.specs.Dialects.{lawful, Lawful};

use crate::dialects::Dialect;
use diagram::letters::{Letter, Look};
use diagram::meanings::{Answers, Letters, Meaning};

// The meaning of a lawful dialect.
#[derive(Clone, Copy)]
pub struct Profile {
    meaning: Meaning,
    ghost sound: { lawful meaning ≡ true },
}

impl Profile {
    // The profile of a dialect, by what the dialect says when it is asked.
    pub fn of<D: Dialect>() -> Profile
        ensures { result.meaning ≡ D.Dialect.meaning }
    {
        Profile {
            meaning: Meaning {
                code: D::CODE,
                negates: D::NEGATES,
                letters: letters_of::<D>(),
                answers: answers_of::<D>(),
            },
        }
    }

    // The profile with this meaning, if the meaning is lawful.
    pub fn checked(meaning: Meaning) -> Option<Profile>
        ensures { option_map (λ (p : Profile). p.meaning) result ≡ then_some (lawful meaning) meaning }
    {
        // an `if`, since the ghost field of a profile is proved from its branch
        if meaning.is_lawful() {
            Some(Profile { meaning })
        } else {
            None
        }
    }

    // What the profile's dialect means. It passes the test of the laws.
    pub fn meaning(&self) -> Meaning
        ensures value { result ≡ self.now.meaning }
        ensures passes { lawful result ≡ true }
    {
        self.meaning
    }

    // Says, to whoever calls it, that the profile's dialect keeps each law.
    pub fn law(&self)
        ensures { Lawful self.now.meaning }
    {}
}

// Which letters a dialect says it has.
fn letters_of<D: Dialect>() -> Letters
    ensures { result ≡ D.Dialect.meaning.letters }
{
    Letters {
        u: D::has(Letter::U),
        x: D::has(Letter::X),
        c00: D::has(Letter::C00),
        c01: D::has(Letter::C01),
        c10: D::has(Letter::C10),
        c11: D::has(Letter::C11),
    }
}

// What a dialect answers at each look.
fn answers_of<D: Dialect>() -> Answers
    ensures { result ≡ D.Dialect.meaning.answers }
{
    Answers {
        zero_one: D::answer(Look::ZeroOne),
        one_zero: D::answer(Look::OneZero),
        zero_other: D::answer(Look::ZeroOther),
        one_other: D::answer(Look::OneOther),
        other_zero: D::answer(Look::OtherZero),
        other_one: D::answer(Look::OtherOne),
        opposite: D::answer(Look::Opposite),
        plain: D::answer(Look::Plain),
    }
}
