//! Calls of the functions of the language's library on values.
#![tactic(auto)]

pub use calling::{LibraryEnd, call_library};

mod calling;
mod results;
mod takes;
mod words;
