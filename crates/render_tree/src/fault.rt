//! Why a pixel, a line or an image is not rendered.

ghost use Rattle.std.specs.Prelude.{◌≡◌};

use ctl_base::{Memory, Node, TrapKind};
use std::alloc::{AllocError, AllocFailed};

/// Why an image is not rendered.
#[derive(Drop)]
pub enum RenderFault {
    /// The run of this pixel traps, and that of none before it does. Lines and columns are counted from 0.
    Trap {
        line: u32,
        column: u32,
        kind: TrapKind,
        node: Node,
    },
    /// There was no memory.
    Memory,
}

impl From<Memory> for RenderFault {
    ghost use Rattle.render_tree.specs.declared.fault.RenderFault.TheVariants.{Memory as NoMemory};

    ghost from_gives = { λ _ e. e ≡ NoMemory };

    fn from(_: Memory) -> RenderFault {
        RenderFault::Memory
    }
}

impl From<AllocError> for RenderFault {
    ghost use Rattle.render_tree.specs.declared.fault.RenderFault.TheVariants.{Memory as NoMemory};

    ghost from_gives = { λ _ e. e ≡ NoMemory };

    fn from(_: AllocError) -> RenderFault {
        RenderFault::Memory
    }
}

// Why a line is not rendered.
#[derive(Drop)]
pub(crate) enum LineFault {
    Trap {
        column: u32,
        kind: TrapKind,
        node: Node,
    },
    Memory,
}

impl<T: Drop> From<AllocFailed<T>> for LineFault {
    ghost use Rattle.render_tree.specs.declared.fault.LineFault.TheVariants.{Memory as NoMemory};

    ghost from_gives = { λ _ e. e ≡ NoMemory };

    fn from(_: AllocFailed<T>) -> LineFault {
        LineFault::Memory
    }
}

impl From<AllocError> for LineFault {
    ghost use Rattle.render_tree.specs.declared.fault.LineFault.TheVariants.{Memory as NoMemory};

    ghost from_gives = { λ _ e. e ≡ NoMemory };

    fn from(_: AllocError) -> LineFault {
        LineFault::Memory
    }
}

// Why a pixel is not rendered.
#[derive(Drop)]
pub(crate) enum PixelStop {
    Trap { kind: TrapKind, node: Node },
    Memory,
}

impl From<Memory> for PixelStop {
    ghost use Rattle.render_tree.specs.declared.fault.PixelStop.TheVariants.{Memory as NoMemory};

    ghost from_gives = { λ _ e. e ≡ NoMemory };

    fn from(_: Memory) -> PixelStop {
        PixelStop::Memory
    }
}
