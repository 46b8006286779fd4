// What a computed cache notes.
use diagram::edges::Edge;

// A combination: the connective and the two edges that it joins.
#[derive(Clone, Copy, PartialEq, Eq)]
pub struct Key {
    pub connective: u8,
    pub left: Edge,
    pub right: Edge,
}

// A combination and the edge that it gave.
#[derive(Clone, Copy, PartialEq, Eq)]
pub struct Entry {
    pub key: Key,
    pub edge: Edge,
}
