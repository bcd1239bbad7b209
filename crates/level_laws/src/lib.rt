//! Laws of levels: what does not vary is the same in two runs, and calls go to functions before.
#![tactic(auto)]

pub use lower::calls_lower;
pub use uniform::{enters_varying, uniform_values, varying_places};

mod lower;
mod uniform;
