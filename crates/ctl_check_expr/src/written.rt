//! Places as they are written in assignments.

ghost use Rattle.std.specs.Prelude.{map};
ghost use Rattle.ctl_check_rules.specs.Faults.{Gives};
ghost use Rattle.ctl_check_expr.specs.Places.{stepped_path};
ghost use Rattle.ctl_check_expr.specs.Checking.{checked_step};
ghost use Rattle.ctl_check_expr.specs.Written.{place_checked};

use crate::expressions::check_steps;
use crate::places::{check_name, path_form};
use ctl_check_rules::{Checked, ExprFault};
use ctl_program::Definitions;
use ctl_scope::Scope;
use ctl_tree::{QualifiedName, Step};
use std::alloc::Global;

/// The place that is written in an assignment, or its first fault: a name, and the steps into what it stands for.
pub fn check_place(
    alloc: Global,
    scope: &Scope,
    definitions: &Definitions,
    name: &QualifiedName,
    steps: &[Step],
) -> Result<Checked, ExprFault>
    ensures { Gives result (place_checked scope.now definitions.now name.now steps.now) }
{
    let root = check_name(alloc, scope, definitions, name)?;
    check_place_steps(alloc, scope, definitions, steps, root)
}

// The steps of a place behind its root.
fn check_place_steps(
    alloc: Global,
    scope: &Scope,
    definitions: &Definitions,
    steps: &[Step],
    root: Checked,
) -> Result<Checked, ExprFault>
    ensures { Gives result (stepped_path scope.now.unit definitions.now (map (checked_step scope.now definitions.now) steps.now) root) }
{
    let part = check_steps(alloc, scope, definitions, steps, root)?;
    path_form(alloc, part)
}
