//! Assignments. First the place and its steps are looked at, then the value, and then what is wrong at the `=`.

ghost use Rattle.std.specs.Prelude.{◌≡◌};
ghost use Rattle.ctl_types.specs.Typing.{same_size, same_sizes};
ghost use Rattle.ctl_check_rules.specs.Faults.{Gives, rule_at};
ghost use Rattle.ctl_check_init.specs.Assignments.{conversion_to, storing, assignment_rule, assigned_to, assigned};

use crate::lists::are_stated;
use ctl_check_expr::{check_place, check_value, is_assignable, place_of};
use ctl_check_rules::{Checked, ExprFault, base_conversion, broken, operand};
use ctl_program::Definitions;
use ctl_scope::{CheckKind, Scope, Variable};
use ctl_tree::Assignment as Written;
use ctl_types::{Assignment, Base, Conversion, Size, TypedPlace};
use std::alloc::Global;

/// A checked assignment: its typed form, and the greatest depth of a function of the program that is called in it.
#[derive(Drop)]
pub struct Assigned {
    pub assignment: Assignment,
    pub depth: u32,
}

/// An assignment, or its first fault.
pub fn check_assignment(
    alloc: Global,
    scope: &Scope,
    definitions: &Definitions,
    written: &Written,
) -> Result<Assigned, ExprFault>
    ensures { Gives result (assigned scope.now definitions.now written.now) }
{
    let root = &written.place.root;
    let steps = written.place.steps.as_slice();
    let place = check_place(alloc, scope, definitions, root, steps)?;
    check_assigned(alloc, scope, definitions, written, place)
}

// The value of an assignment behind its place.
fn check_assigned(
    alloc: Global,
    scope: &Scope,
    definitions: &Definitions,
    written: &Written,
    place: Checked,
) -> Result<Assigned, ExprFault>
    ensures { Gives result (assigned_to scope.now definitions.now written.now place) }
{
    let value = check_value(alloc, scope, definitions, &written.value)?;
    check_stored(
        alloc,
        scope.unit(),
        written.token,
        scope.variables(),
        place,
        value,
    )
}

// The rule of an assignment.
fn check_stored(
    alloc: Global,
    unit: u32,
    token: u32,
    variables: &[Option<Variable>],
    place: Checked,
    value: Checked,
) -> Result<Assigned, ExprFault>
    ensures { Gives result (rule_at unit token (assignment_rule variables.now place value)) }
{
    let conversion = storing(&place, &value);
    let depth = place.depth.max(value.depth);
    let Some(target) = place_of(alloc, place.form) else {
        return Err(broken(unit, token, CheckKind::NotAssignable));
    };
    if !is_assignable(variables, target.variable) {
        return Err(broken(unit, token, CheckKind::NotAssignable));
    }
    let Some(conversion) = conversion else {
        return Err(broken(unit, token, CheckKind::Mismatch));
    };
    Ok(Assigned {
        assignment: Assignment {
            place: target,
            value: operand(value.form, conversion),
        },
        depth,
    })
}

// What is done to a value that is stored in a place.
fn storing(place: &Checked, value: &Checked) -> Option<Conversion>
    ensures { result ≡ storing place.now value.now }
{
    let sizes = place.sizes.as_slice();
    if are_stated(sizes) && same_sizes(sizes, value.sizes.as_slice()) {
        conversion_to(sizes, place.base, value.base)
    } else {
        None
    }
}

// What is done to a value where another base may be wanted.
fn conversion_to(sizes: &[Size], wanted: Option<Base>, given: Option<Base>) -> Option<Conversion>
    ensures { result ≡ conversion_to sizes.now wanted given }
{
    match wanted {
        Some(wanted) => base_conversion(sizes, wanted, given),
        None => None,
    }
}

// Whether two sizes are the same.
fn same_size(a: Size, b: Size) -> bool
    ensures { result ≡ same_size a b }
{
    a == b
}

// Whether sizes are the same.
fn same_sizes(sizes: &[Size], others: &[Size]) -> bool
    ensures { result ≡ same_sizes sizes.now others.now }
{
    match sizes.split_first() {
        Some((size, rest)) => match others.split_first() {
            Some((other, behind)) => same_size(*size, *other) && same_sizes(rest, behind),
            None => false,
        },
        None => others.is_empty(),
    }
}
