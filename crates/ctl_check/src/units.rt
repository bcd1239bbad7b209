//! Units in load order, each by those before it.

ghost use Rattle.std.specs.Prelude.{◌≡◌, ◌≤◌, length, Some, slice_get};
ghost use Rattle.ctl_base.specs.declared.limits.TheConstants.{MODULES};
ghost use Rattle.ctl_check_function.specs.Entry.{entry_of};
ghost use Rattle.ctl_check_function.specs.Programs.{unit_defined, units_defined};
ghost use Rattle.ctl_check_function.specs.Laws.{Resting};
ghost use Rattle.ctl_check.specs.Keeps.{Defines, KeepsUnits};

use crate::defining::define_all;
use ctl_check_function::Entry;
use ctl_check_rules::ExprFault;
use ctl_program::Definitions;
use ctl_scope::Scope;
use ctl_tree::Unit;
use definition_laws::spaces_rest;
use std::alloc::Global;

/// The definitions of all units, which are those of the definitions so far.
pub(crate) fn define_units(
    alloc: Global,
    scope: &mut Scope,
    definitions: &mut Definitions,
    entry: Entry,
    units: &[Unit],
) -> Result<(), ExprFault>
    requires resting { Resting scope.old definitions.old }
    requires units { definitions.old.units ≡ units.now }
    requires few { length units.now ≤ MODULES }
    requires entry { entry ≡ entry_of units.now }
    ensures { Defines result scope.new definitions.new (units_defined 0 units.now (record { made = definitions.old; scope = scope.old })) }
{
    let mut place = 0;
    for unit in units {
        define_unit(alloc, scope, definitions, entry, place, unit)?;
        place += 1;
    }
    Ok(())
}

// The definitions of the unit of a place.
#[tactic(auto, using(crate::proofs::Tokens::unit_tokens, crate::proofs::Resting::keeps_units))]
fn define_unit(
    alloc: Global,
    scope: &mut Scope,
    definitions: &mut Definitions,
    entry: Entry,
    place: u32,
    unit: &Unit,
) -> Result<(), ExprFault>
    requires resting { Resting scope.old definitions.old }
    requires unit { slice_get definitions.old.units place ≡ Some unit.now }
    requires entry { entry ≡ entry_of definitions.old.units }
    ensures verdict { Defines result scope.new definitions.new (unit_defined place unit.now (record { made = definitions.old; scope = scope.old })) }
    ensures keeps { KeepsUnits result definitions.old scope.new definitions.new }
{
    spaces_rest();
    let module = unit.module();
    scope.enter_unit(place);
    define_all(
        alloc,
        scope,
        definitions,
        entry,
        module.definitions.as_slice(),
    )
}
