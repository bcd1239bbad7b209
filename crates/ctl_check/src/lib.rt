//! The checker of programs: the one program that modules in load order mean, or the first form that has no meaning.
#![tactic(auto)]

pub use fault::CheckFault;
pub use program::check;

mod defining;
mod entry;
mod fault;
mod program;
mod units;
