//! One pixel by the tree of a checked program: what an entry gives for the values of its inputs, and what an initialiser
//! outside functions gives.
#![tactic(auto)]

pub use ends::{PixelEnd, ValueEnd};
pub use entry::run;
pub use initial::{evaluate, value_of};

mod beginning;
mod ends;
mod entry;
mod initial;
