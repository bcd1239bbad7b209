//! What every crate of the project names: texts, places in a program, kinds of number, steps and limits.
#![tactic(auto)]

pub mod kind;
pub mod limits;
pub mod steps;
pub mod text;

pub use kind::{Node, ScalarKind, TrapKind};
pub use steps::{Counter64, Ledger, Steps};
pub use text::{ByteText, Memory, TextArg};
