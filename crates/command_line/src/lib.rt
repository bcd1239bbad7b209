//! The command that the words of a command line spell, or the first word that fails.
#![tactic(auto)]

pub use command::{Command, Param, ParamList, StageFile, StageWords};
pub use item::Item;
pub use laws::{force_is_accepted, one_meaning, some_meaning, source_is_first};
pub use option::{Count, Kind};
pub use reading::{WordFault, read_words};

mod assembling;
mod command;
mod following;
mod item;
mod laws;
mod list;
mod option;
mod reading;
mod word;
