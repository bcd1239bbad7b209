//! The outside: files by name and a console, as traits that say what is held and said, each with
//! one implementation in memory and one over the system.
#![tactic(auto)]

mod calls;
pub mod console;
pub mod disk_box;
pub mod files;
pub mod mem_box;
mod stream;
mod system;

pub use console::{Console, MemConsole, OutConsole};
pub use disk_box::DiskBox;
pub use files::{Failed, FetchFault, Fetched, FileBox};
pub use mem_box::MemBox;
