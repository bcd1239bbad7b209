//! The module that tokens spell, by recursive descent: each file reads some forms, and answers the form and the place
//! after it, or the place of the fault.
#![tactic(auto)]

pub use syntax::{SyntaxFault, parse};

mod assignments;
mod beginnings;
mod definitions;
mod heads;
mod modules;
mod parameters;
mod statements;
mod syntax;
mod texts;
