//! Modules by name: a module is loaded after its imports, these in order, each once, from the first folder of a path
//! that holds its file.
#![tactic(auto)]

pub use fault::LoadFault;
pub use laws::{asks_for_the_first, at_least_one, at_most_one, each_once, read_fault_is_last};
pub use loading::load;

mod fault;
mod files;
mod folders;
mod laws;
mod loading;
mod reading;
