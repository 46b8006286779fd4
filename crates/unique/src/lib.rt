// The unique table: the diamonds of an engine, with an index to look them up by.
#![tactic(auto)]

pub mod buckets;
pub mod chains;
pub mod finding;
pub mod growing;
pub mod tables;
