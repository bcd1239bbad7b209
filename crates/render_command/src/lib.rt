//! The command: its steps over the files in their order.
#![tactic(auto)]

mod order;
mod steps;

pub use command_status::{ImageFault, SourceFault, Status};
pub use order::{one_verdict, render, some_verdict};
