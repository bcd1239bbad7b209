//! What a declaration's shape is called, and the sizes of its arrays.
#![tactic(auto)]

pub use extents::Extents;
pub use names::check_base;
pub use sizes::check_extents;

mod constants;
mod extents;
mod forms;
mod names;
mod numbers;
mod sizes;
mod sizing;
