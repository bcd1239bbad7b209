//! Scopes of a function's variables.

use crate::NameTable;

/// A scope of its own in a function: the names that are declared in it.
#[derive(Drop)]
pub struct Block {
    /// The number that the next variable had where the block began.
    pub start: u32,
    pub names: NameTable,
}
