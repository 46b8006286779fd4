// What a dialect means, as plain data.
use crate::letters::Letter;

// Which letters a dialect has.
#[derive(Clone, Copy)]
pub struct Letters {
    pub u: bool,
    pub x: bool,
    pub c00: bool,
    pub c01: bool,
    pub c10: bool,
    pub c11: bool,
}

// A dialect's answer, a letter or none, at each of the eight looks.
#[derive(Clone, Copy)]
pub struct Answers {
    pub zero_one: Option<Letter>,
    pub one_zero: Option<Letter>,
    pub zero_other: Option<Letter>,
    pub one_other: Option<Letter>,
    pub other_zero: Option<Letter>,
    pub other_one: Option<Letter>,
    pub opposite: Option<Letter>,
    pub plain: Option<Letter>,
}

// The meaning of a dialect: the code that files name it by, whether it negates, its letters and its answers.
#[derive(Clone, Copy)]
pub struct Meaning {
    pub code: u8,
    pub negates: bool,
    pub letters: Letters,
    pub answers: Answers,
}
