//! What the checker says of functions, structs and constants: the typed form of each with its name in the scope, or the
//! first form that breaks a rule. Which function is the entry.
#![tactic(auto)]

pub use constants::check_constant;
pub use entry::{Entry, entry_of, is_function, stem};
pub use functions::{Made, check_function};
pub use structs::check_struct;

mod constants;
mod declared;
mod entry;
mod functions;
mod names;
mod parameters;
mod scalars;
mod sizes;
mod structs;
