//! How the run of a lane ends.

use ctl_base::{Node, TrapKind};

/// On its way, by a Leave, or by a trap.
#[derive(Clone, Copy, Debug, PartialEq, Eq)]
pub enum LaneEnd {
    Normal,
    Left,
    Trapped { kind: TrapKind, node: Node },
}
