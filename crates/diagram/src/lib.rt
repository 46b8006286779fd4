// Decision diagrams with letters: edges, what they mean, which are accepted, and the theorems.
#![tactic(auto)]

pub mod accepting;
pub mod alphabet;
pub mod edges;
pub mod lawful;
pub mod letters;
pub mod looks;
pub mod making;
pub mod meanings;
pub mod printing;
pub mod refusals;
pub mod refusing;
pub mod targets;
pub mod theorems;
pub mod words;
