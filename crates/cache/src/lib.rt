// The computed cache: a map from a connective and two edges to an edge.
#![tactic(auto)]

pub mod blank;
pub mod caches;
pub mod entries;
pub mod keying;
pub mod slot;
pub mod tables;
pub mod tabling;
