//! What the checker says of initialisers, assignments, tests and returns: the typed form of each, or the first form
//! that breaks a rule.
#![tactic(auto)]

pub use assignments::{Assigned, check_assignment};
pub use begun::Begun;
pub use initialisers::{begin_initialiser, check_initialiser};
pub use limits::check_begun;
pub use lists::sized;
pub use takings::{Returned, Taken, check_return, check_test};

mod assignments;
mod begun;
mod initialisers;
mod limits;
mod lists;
mod takings;
