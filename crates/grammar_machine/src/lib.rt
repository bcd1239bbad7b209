//! A machine with a stack that reads the tokens of a module from left to right, and what it tells of them: whether they
//! spell a module, and where they have their fault. Here is no code that runs: the laws are called for what they say.
#![tactic(auto)]

pub use laws::{
    ends_are_modules, module_or_fault, modules_are_passed, refusals_spell_none, sinks_are_faults,
    stops_are_faults,
};

mod laws;
