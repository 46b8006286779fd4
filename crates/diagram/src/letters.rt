// Letters, and the looks of two halves that a dialect answers.

// A letter makes a rule of one more mark from a rule. They stand in the order of their octal digits in a word, from 0.
#[derive(Clone, Copy, PartialEq, Eq)]
pub enum Letter {
    U,
    X,
    C00,
    C01,
    C10,
    C11,
}

impl Letter {
    // All six letters.
    pub(crate) const ALL: [Letter; 6] = [
        Letter::U,
        Letter::X,
        Letter::C00,
        Letter::C01,
        Letter::C10,
        Letter::C11,
    ];
}

// What two differing halves, low and high, are seen to be.
#[derive(Clone, Copy)]
pub enum Look {
    ZeroOne,
    OneZero,
    ZeroOther,
    OneOther,
    OtherZero,
    OtherOne,
    Opposite,
    Plain,
}

impl Look {
    // All eight looks.
    pub(crate) const ALL: [Look; 8] = [
        Look::ZeroOne,
        Look::OneZero,
        Look::ZeroOther,
        Look::OneOther,
        Look::OtherZero,
        Look::OtherOne,
        Look::Opposite,
        Look::Plain,
    ];
}
