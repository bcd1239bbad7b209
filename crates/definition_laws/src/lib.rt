//! What the checker accepts of definitions keeps the rules. Here is no code that runs: the laws are called for what they say.
#![tactic(auto)]

pub use laws::{
    accepted_constants_fit, accepted_functions_fit, accepted_structs_fit, entry_stands_checked,
    spaces_rest,
};

mod laws;
