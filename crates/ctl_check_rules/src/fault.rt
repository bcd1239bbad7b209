//! The first fault of an expression.

ghost use Rattle.std.specs.Prelude.{◌≡◌};
ghost use Rattle.ctl_check_rules.specs.declared.fault.ExprFault.TheVariants.{At};
ghost use Rattle.ctl_check_rules.specs.Faults.{node_of};

use ctl_base::{Memory, Node};
use ctl_scope::CheckKind;
use std::alloc::{AllocError, AllocFailed};

/// Why an expression has no type.
#[derive(Clone, Copy, Debug, PartialEq, Eq)]
pub enum ExprFault {
    /// The first form that breaks a rule.
    At { node: Node, kind: CheckKind },
    Memory,
}

impl From<Memory> for ExprFault {
    ghost use Rattle.ctl_check_rules.specs.declared.fault.ExprFault.TheVariants.{Memory as NoMemory};

    ghost from_gives = { λ _ e. e ≡ NoMemory };

    fn from(_: Memory) -> ExprFault {
        ExprFault::Memory
    }
}

impl From<AllocError> for ExprFault {
    ghost use Rattle.ctl_check_rules.specs.declared.fault.ExprFault.TheVariants.{Memory};

    ghost from_gives = { λ _ e. e ≡ Memory };

    fn from(_: AllocError) -> ExprFault {
        ExprFault::Memory
    }
}

impl<T: Drop> From<AllocFailed<T>> for ExprFault {
    ghost use Rattle.ctl_check_rules.specs.declared.fault.ExprFault.TheVariants.{Memory};

    ghost from_gives = { λ _ e. e ≡ Memory };

    fn from(_: AllocFailed<T>) -> ExprFault {
        ExprFault::Memory
    }
}

/// A rule that a form of a unit breaks.
pub fn broken(unit: u32, token: u32, kind: CheckKind) -> ExprFault
    ensures { result ≡ At (node_of unit token) kind }
{
    ExprFault::At {
        node: node_of(unit, token),
        kind,
    }
}

/// A form of a unit by its own token.
pub fn node_of(unit: u32, token: u32) -> Node
    ensures { result ≡ node_of unit token }
{
    Node {
        module: unit,
        token,
    }
}
