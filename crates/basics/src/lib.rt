// The parts of an engine's calls that need no engine.
#![tactic(auto)]

pub mod arguments;
pub mod marks;
pub mod plain;
pub mod settling;
