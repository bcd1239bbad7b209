//! What varies from pixel to pixel in an instance of a function: the rules, and laws about them.
#![tactic(auto)]

pub use found::Found;
pub use instance::{Holder, Instance};
pub use laws::{levels_are_one, puts_grow, reached_is_least, rows_tell};

mod found;
mod instance;
mod laws;
