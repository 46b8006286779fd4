// The answer of a combination.
use diagram::edges::Edge;

// The edge, and whether the cache found it; the edge is there in both cases.
#[derive(Clone, Copy)]
pub struct Combined {
    pub edge: Edge,
    pub found: bool,
}
