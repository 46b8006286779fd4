// The five built-in dialects.
ghost use Rattle.std.specs.Prelude.{◌≡◌, [], ◌∷◌, map, refl};
ghost use Rattle.diagram.specs.Builtin.{dialect1, dialect2, dialect3, dialect4, dialect5};
ghost use Rattle.dialect.specs.Alone.{u_alone, u_alone_lawful};
ghost use Rattle.dialect.specs.declared.profiles.Profile.{Profile as ProfileRecord};
ghost use Rattle.std.proofs.Common.{rules};

use crate::dialects::Dialect;
use crate::profiles::Profile;
use diagram::letters::{Letter, Look};

// u alone: the code and whether it negates are all in which such dialects differ.
pub struct UAlone<const NUMBER: u8, const NEGATING: bool>;

impl<const NUMBER: u8, const NEGATING: bool> Dialect for UAlone<NUMBER, NEGATING> {
    const CODE: u8 = NUMBER;

    ghost CODE = { NUMBER };

    const NEGATES: bool = NEGATING;

    ghost NEGATES = { NEGATING };

    ghost meaning = { u_alone NUMBER NEGATING };

    ghost coded = { refl };

    ghost negating = { refl };

    ghost sound = { u_alone_lawful NUMBER NEGATING };

    fn has(letter: Letter) -> bool {
        matches!(letter, Letter::U)
    }

    fn answer(_look: Look) -> Option<Letter> {
        None
    }
}

// u, not negating.
pub type Dialect1 = UAlone<1, false>;

// u, negating.
pub type Dialect2 = UAlone<2, true>;

// u and c10, not negating.
pub struct Dialect3;

impl Dialect for Dialect3 {
    const CODE: u8 = 3;

    ghost CODE = { dialect3.code };

    const NEGATES: bool = false;

    ghost NEGATES = { dialect3.negates };

    ghost meaning = { dialect3 };

    ghost coded = { refl };

    ghost negating = { refl };

    ghost sound = { Prim.search rules };

    fn has(letter: Letter) -> bool {
        matches!(letter, Letter::U | Letter::C10)
    }

    fn answer(look: Look) -> Option<Letter> {
        match look {
            Look::OneZero | Look::OtherZero => Some(Letter::C10),
            _ => None,
        }
    }
}

// u, c00 and c10, not negating.
pub struct Dialect4;

impl Dialect for Dialect4 {
    const CODE: u8 = 4;

    ghost CODE = { dialect4.code };

    const NEGATES: bool = false;

    ghost NEGATES = { dialect4.negates };

    ghost meaning = { dialect4 };

    ghost coded = { refl };

    ghost negating = { refl };

    ghost sound = { Prim.search rules };

    fn has(letter: Letter) -> bool {
        matches!(letter, Letter::U | Letter::C00 | Letter::C10)
    }

    fn answer(look: Look) -> Option<Letter> {
        match look {
            Look::ZeroOne | Look::ZeroOther => Some(Letter::C00),
            Look::OneZero | Look::OtherZero => Some(Letter::C10),
            _ => None,
        }
    }
}

// All six letters, negating.
pub struct Dialect5;

impl Dialect for Dialect5 {
    const CODE: u8 = 5;

    ghost CODE = { dialect5.code };

    const NEGATES: bool = true;

    ghost NEGATES = { dialect5.negates };

    ghost meaning = { dialect5 };

    ghost coded = { refl };

    ghost negating = { refl };

    ghost sound = { Prim.search rules };

    fn has(_letter: Letter) -> bool {
        true
    }

    fn answer(look: Look) -> Option<Letter> {
        match look {
            Look::ZeroOne | Look::OneZero | Look::Opposite => Some(Letter::X),
            Look::ZeroOther => Some(Letter::C00),
            Look::OneOther => Some(Letter::C01),
            Look::OtherZero => Some(Letter::C10),
            Look::OtherOne => Some(Letter::C11),
            Look::Plain => None,
        }
    }
}

// The profiles of the built-in dialects.
pub fn built_in() -> [Profile; 5]
    ensures { map (λ (p : ProfileRecord). p.meaning) result ≡ dialect1 ∷ dialect2 ∷ dialect3 ∷ dialect4 ∷ dialect5 ∷ [] }
{
    [
        Profile::of::<Dialect1>(),
        Profile::of::<Dialect2>(),
        Profile::of::<Dialect3>(),
        Profile::of::<Dialect4>(),
        Profile::of::<Dialect5>(),
    ]
}
