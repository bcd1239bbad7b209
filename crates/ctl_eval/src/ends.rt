//! How runs end.

use ctl_base::{Node, TrapKind};
use ctl_types::Value;
use sqlite_items::Items;

/// How the run of a pixel ends: with the values of the outputs in the order of the parameters and the turns that are left,
/// or by a trap.
#[derive(Drop)]
pub enum PixelEnd {
    Values { outputs: Items<Value>, turns: u32 },
    Trap { kind: TrapKind, node: Node },
}

/// What an initialiser gives: its value and the turns that are left, or a trap.
#[derive(Drop)]
pub enum ValueEnd {
    Value { value: Value, turns: u32 },
    Trap { kind: TrapKind, node: Node },
}

/// The values of outputs, and the turns that are left.
#[derive(Drop)]
pub struct Outputs {
    pub values: Items<Value>,
    pub turns: u32,
}
