//! The first fault of a program.

ghost use Rattle.std.specs.Prelude.{◌≡◌, IfOk, Err};
ghost use Rattle.std.specs.Option.{option_copied};
ghost use Rattle.ctl_check.specs.Checks.{file_in, file_of_node, FaultOf};

use ctl_base::{Memory, Node, TextArg};
use ctl_scope::CheckKind;
use ctl_tree::{Unit, Units};
use std::alloc::Global;

/// Why a program has no meaning.
#[derive(Drop)]
pub enum CheckFault {
    /// The first form that breaks a rule, with the file that it stands in and its line there.
    At {
        file: TextArg,
        line: u32,
        node: Node,
        kind: CheckKind,
    },
    Memory,
}

impl From<Memory> for CheckFault {
    ghost use Rattle.ctl_check.specs.declared.fault.CheckFault.TheVariants.{Memory as NoMemory};

    ghost from_gives = { λ _ e. e ≡ NoMemory };

    fn from(_: Memory) -> CheckFault {
        CheckFault::Memory
    }
}

/// The fault at a node of these units.
pub(crate) fn fault_at(alloc: Global, units: &Units, node: Node, kind: CheckKind) -> CheckFault
    ensures { FaultOf units.now node kind result }
{
    let line = units.line_of(node);
    match file_of(alloc, units, node) {
        Ok(file) => CheckFault::At {
            file,
            line,
            node,
            kind,
        },
        Err(Memory) => CheckFault::Memory,
    }
}

// The file of a node.
fn file_of(alloc: Global, units: &Units, node: Node) -> Result<TextArg, Memory>
    ensures { IfOk result (λ file. file ≡ file_of_node units.now node) }
{
    file_in(alloc, units.get(node.module))
}

// The file of a unit, and nothing where there is none.
fn file_in(alloc: Global, unit: Option<&Unit>) -> Result<TextArg, Memory>
    ensures { IfOk result (λ file. file ≡ file_in (option_copied unit.entry)) }
{
    match unit {
        Some(unit) => unit.file().copy(alloc),
        None => TextArg::new(alloc, ""),
    }
}
