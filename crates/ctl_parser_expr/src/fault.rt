//! Why tokens are refused.

ghost use Rattle.std.specs.Prelude.{◌≡◌};

use ctl_base::Memory;
use std::alloc::{AllocError, AllocFailed};

/// A refusal, with the place of its token.
#[derive(Clone, Copy, Debug, PartialEq, Eq)]
pub enum Fault {
    /// No form goes on with the token at this place.
    NotHere(usize),
    /// With the token at this place a form that is nested too deeply can no longer be avoided.
    Depth(usize),
    Memory,
}

impl From<AllocError> for Fault {
    ghost use Rattle.ctl_parser_expr.specs.declared.fault.Fault.TheVariants.{Memory};

    ghost from_gives = { λ _ e. e ≡ Memory };

    fn from(_: AllocError) -> Fault {
        Fault::Memory
    }
}

impl<T: Drop> From<AllocFailed<T>> for Fault {
    ghost use Rattle.ctl_parser_expr.specs.declared.fault.Fault.TheVariants.{Memory};

    ghost from_gives = { λ _ e. e ≡ Memory };

    fn from(_: AllocFailed<T>) -> Fault {
        Fault::Memory
    }
}

impl From<Memory> for Fault {
    ghost use Rattle.ctl_parser_expr.specs.declared.fault.Fault.TheVariants.{Memory as NoMemory};

    ghost from_gives = { λ _ e. e ≡ NoMemory };

    fn from(_: Memory) -> Fault {
        Fault::Memory
    }
}
