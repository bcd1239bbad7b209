//! Checked programs: the definitions so far and the whole program, each under its invariant.
#![tactic(auto)]

pub use definitions::Definitions;
pub use laws::signatures_stay;
pub use program::Program;

mod definitions;
mod laws;
mod program;
