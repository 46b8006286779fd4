// Edges and diamonds, as callers offer them and engines answer them.

// Where an edge ends: terminal zero, terminal one, or the diamond with this number.
#[derive(Clone, Copy, PartialEq, Eq, Hash)]
pub enum Target {
    Zero,
    One,
    Diamond(u16),
}

// A word of `length` letters as an octal numeral, topmost letter first. Any value can be offered.
#[derive(Clone, Copy, PartialEq, Eq, Hash)]
pub struct Word {
    pub length: u8,
    pub digits: u64,
}

// A mark, a word and a target. Any value can be offered; which are accepted, an engine says.
// The word stands first: fields lie in memory in the order of the source, and so an edge takes 24 bytes and not 32.
#[derive(Clone, Copy, PartialEq, Eq, Hash)]
pub struct Edge {
    pub word: Word,
    pub negated: bool,
    pub target: Target,
}

// Two edges of one arity; a rule of one more mark, low where that mark is 0 and high where it is 1.
#[derive(Clone, Copy, PartialEq, Eq, Hash)]
pub struct Diamond {
    pub low: Edge,
    pub high: Edge,
}
