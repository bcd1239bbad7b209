//! What the checker accepts as an initialiser, an assignment, a test or a return is well typed. Here is no code that
//! runs: the laws are called for what they say.
#![tactic(auto)]

pub use laws::{assignments_are_well, initialisers_are_well, returns_are_well, tests_are_bool};

mod laws;
