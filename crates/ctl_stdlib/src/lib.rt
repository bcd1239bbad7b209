//! The library of the language: each function by its name, with the shapes of what it takes and gives,
//! and the call of it over flat words.
//!
//! Nothing here takes memory.
#![tactic(auto)]

pub use calling::call;
pub use constants::{LibraryConstant, find_constant};
pub use laws::{halves_come_out, names_differ, only_assert_refuses, results_fit};
pub use names::{find, name_of};
pub use row::{Base, LibraryId, Param, RowShape};
pub use shapes::{params, result};

mod calling;
mod constants;
mod laws;
mod names;
mod row;
mod shapes;
mod tables;
mod vectors;
