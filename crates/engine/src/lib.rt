// The engine: diamonds of one dialect, with a computed cache.
#![tactic(auto)]

pub mod calls;
mod checking;
pub mod combined;
pub mod combining;
mod counting;
pub mod engines;
mod growing;
mod halving;
pub mod states;
pub mod theorems;
