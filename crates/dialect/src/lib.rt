// Dialects: the open interface, the built-in ones, and dialects as values.
#![tactic(auto)]

pub mod builtin;
pub mod dialects;
pub mod profiles;
