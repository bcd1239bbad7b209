//! Code, and the test that it is valid.

ghost use Rattle.std.specs.Prelude.{◌≡◌, true};
ghost use Rattle.lane_code.specs.Valid.{is_valid};
ghost use Rattle.lane_code.specs.declared.valid.Numbers.{Numbers};

use crate::instr::{Instr, Slot};
use sqlite_items::Items;

/// Blocks of instructions, the number of the one that runs first, the numbers of slots, and the first slots of the
/// entry's inputs and outputs in their order. The code is valid.
#[derive(Drop)]
pub struct Code {
    pub blocks: Items<Items<Instr>>,
    pub entry: u32,
    pub varying: u32,
    pub uniform: u32,
    pub inputs: Items<Slot>,
    pub outputs: Items<Slot>,
    ghost valid: { is_valid (record { varying = varying; uniform = uniform }) blocks entry inputs outputs ≡ true },
}

/// What is to be code is not valid.
#[derive(Clone, Copy, Debug, PartialEq, Eq)]
pub struct NotValid;
