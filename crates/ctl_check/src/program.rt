//! Whole programs.

ghost use Rattle.std.specs.Prelude.{◌≡◌, Ok, IfOk};
ghost use Rattle.ctl_types.specs.Definitions.{entry_number};
ghost use Rattle.ctl_types.specs.Scoping.{library_definitions};
ghost use Rattle.ctl_check.specs.Checks.{Checks, ProgramDefined};

use crate::CheckFault;
use crate::entry::entry_number;
use crate::fault::fault_at;
use crate::units::define_units;
use ctl_base::Memory;
use ctl_check_function::entry_of;
use ctl_check_rules::ExprFault;
use ctl_program::{Definitions, Program};
use ctl_scope::Scope;
use ctl_tree::Units;
use definition_laws::{entry_stands_checked, spaces_rest};
use std::alloc::Global;

/// The one program that units in load order mean, the root last, or their first fault: the first form in load order that
/// breaks a rule, the parts of a form before the form itself.
pub fn check(alloc: Global, units: Units) -> Result<Program, CheckFault>
    ensures { Checks result units }
{
    let mut definitions = Definitions::new(alloc, units)?;
    let shared = definitions.shared_units()?;
    let units = shared.as_ref();
    match define_program(alloc, &mut definitions, units) {
        Ok(()) => Ok(program_of(units, definitions)?),
        Err(ExprFault::At { node, kind }) => Err(fault_at(alloc, units, node, kind)),
        Err(ExprFault::Memory) => Err(CheckFault::Memory),
    }
}

// All definitions of units, behind those of the library.
fn define_program(
    alloc: Global,
    definitions: &mut Definitions,
    units: &Units,
) -> Result<(), ExprFault>
    requires { definitions.old ≡ library_definitions units.now }
    ensures { ProgramDefined result definitions.new units.now }
{
    let mut scope = Scope::new(alloc)?;
    spaces_rest();
    let _few = units.len();
    let entry = entry_of(units);
    define_units(alloc, &mut scope, definitions, entry, units.as_slice())
}

// The program of the definitions of some units.
fn program_of(units: &Units, definitions: Definitions) -> Result<Program, Memory>
    requires { ProgramDefined (Ok tt) definitions units.now }
    ensures { IfOk result (λ p. p ≡ record { definitions = definitions; entry = entry_number definitions }) }
{
    entry_stands_checked();
    let entry = entry_number(&definitions)?;
    Ok(Program::new(definitions, entry))
}
