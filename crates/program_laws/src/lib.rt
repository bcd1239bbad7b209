//! What the checker accepts as a whole keeps the rules of programs. Here is no code that runs: the laws are called for what they say.
#![tactic(auto)]

pub use laws::{checked_programs_keep_rules, loaded_programs_keep_rules};

mod laws;
