//! What code is made of.

use crate::instr::{Instr, Slot};
use sqlite_items::Items;

/// The blocks, the entry and the numbers of what is to be code.
#[derive(Drop)]
pub struct Parts {
    pub blocks: Items<Items<Instr>>,
    pub entry: u32,
    pub varying: u32,
    pub uniform: u32,
    pub inputs: Items<Slot>,
    pub outputs: Items<Slot>,
}
