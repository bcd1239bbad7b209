//! How the command ends: its statuses with their numbers, and the line that is said for each.
#![tactic(auto)]

mod kinds;
mod say;
mod status;

pub use say::say_status;
pub use status::{ImageFault, SourceFault, Status};
