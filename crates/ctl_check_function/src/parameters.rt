//! The parameters of functions.

ghost use Rattle.std.specs.Prelude.{◌≡◌, [], true, false, IsOk, IfOk, OnOk};
ghost use Rattle.std.specs.Option.{option_copied};
ghost use Rattle.ctl_scope.specs.Changes.{is_declared, in_default};
ghost use Rattle.ctl_check_rules.specs.Faults.{Gives, rule_at};
ghost use Rattle.ctl_check_statement.specs.Leading.{Leads};
ghost use Rattle.ctl_check_function.specs.Parameters.{is_marked_output, parameter_form, is_plain, plain_rule, plain_new, default_valued, default_checked, parameter_with, parameter_checked, next_parameter, parameters_checked};

use crate::declared::{check_begun_new, check_first_value, check_new};
use crate::names::see_parameter;
use crate::sizes::is_stated;
use ctl_base::Memory;
use ctl_check_init::{Begun, begin_initialiser};
use ctl_check_rules::{ExprFault, broken, node_of};
use ctl_check_statement::check_shape;
use ctl_program::Definitions;
use ctl_scope::{CheckKind, Scope};
use ctl_tree::{Direction, Initialiser as Written, Parameter as WrittenParameter};
use ctl_types::{Base, Parameter, Shape, Value};
use sqlite_items::Items;
use std::alloc::Global;

/// Parameters from the left in the scope of a head, which has them then.
pub(crate) fn check_parameters(
    alloc: Global,
    scope: &mut Scope,
    definitions: &Definitions,
    is_entry: bool,
    parameters: &[WrittenParameter],
) -> Result<Items<Parameter>, ExprFault>
    requires { scope.old.sees_variables ≡ true }
    ensures { Leads result scope.new (parameters_checked definitions.now is_entry parameters.now (record { made = []; scope = scope.old })) }
{
    let mut before = Items::new(alloc);
    for parameter in parameters {
        before = check_next(alloc, scope, definitions, is_entry, parameter, before)?;
    }
    Ok(before)
}

// A parameter behind those before it.
fn check_next(
    alloc: Global,
    scope: &mut Scope,
    definitions: &Definitions,
    is_entry: bool,
    written: &WrittenParameter,
    before: Items<Parameter>,
) -> Result<Items<Parameter>, ExprFault>
    requires { scope.old.sees_variables ≡ true }
    ensures form { Leads result scope.new (next_parameter definitions.now is_entry written.now (record { made = before; scope = scope.old })) }
    ensures sees { OnOk result (scope.new.sees_variables ≡ true) }
{
    let parameter = check_parameter(alloc, scope, definitions, is_entry, written)?;
    see_parameter(alloc, scope, &parameter)?;
    let mut parameters = before;
    parameters.push(parameter)?;
    Ok(parameters)
}

// A parameter, whose name is new. The scope stays as it is.
fn check_parameter(
    alloc: Global,
    scope: &mut Scope,
    definitions: &Definitions,
    is_entry: bool,
    written: &WrittenParameter,
) -> Result<Parameter, ExprFault>
    requires { scope.old.sees_variables ≡ true }
    ensures form { Gives result (parameter_checked definitions.now is_entry scope.old written.now) }
    ensures new { IfOk result (λ q. is_declared scope.old.blocks q.name ≡ false) }
    ensures kept { OnOk result (scope.new ≡ scope.old) }
{
    let sizes = written.sizes.as_slice();
    let shape = check_shape(alloc, scope, definitions, true, &written.shape, sizes)?;
    with_shape(alloc, scope, definitions, is_entry, written, shape)
}

// A parameter of a shape.
fn with_shape(
    alloc: Global,
    scope: &mut Scope,
    definitions: &Definitions,
    is_entry: bool,
    written: &WrittenParameter,
    shape: Shape,
) -> Result<Parameter, ExprFault>
    requires { scope.old.sees_variables ≡ true }
    ensures form { Gives result (parameter_with definitions.now is_entry scope.old written.now shape written.now.value) }
    ensures new { IfOk result (λ q. is_declared scope.old.blocks q.name ≡ false) }
    ensures kept { OnOk result (scope.new ≡ scope.old) }
{
    match &written.value {
        Some(value) => {
            let default = check_default(
                alloc,
                scope,
                definitions,
                is_entry,
                written,
                &shape,
                value,
            )?;
            Ok(parameter_form(alloc, scope.unit(), written, shape, Some(default))?)
        }
        None => {
            check_plain_new(scope, is_entry, written, &shape)?;
            Ok(parameter_form(alloc, scope.unit(), written, shape, None)?)
        }
    }
}

// The rules at the name of a parameter without a default.
fn check_plain_new(
    scope: &Scope,
    is_entry: bool,
    written: &WrittenParameter,
    shape: &Shape,
) -> Result<(), ExprFault>
    ensures form { Gives result (plain_new is_entry scope.now written.now shape.now) }
    ensures new { IsOk result → is_declared scope.now.blocks written.now.name ≡ false }
{
    let is_twice = scope.is_declared(written.name.as_slice());
    check_new(scope.unit(), written.token, is_twice)?;
    check_plain(scope.unit(), written.token, is_entry, shape)
}

// A default in its own scope. The scope around it stays as it is.
#[tactic(auto, using(crate::proofs::Defaults::seen_again))]
fn check_default(
    alloc: Global,
    scope: &mut Scope,
    definitions: &Definitions,
    is_entry: bool,
    written: &WrittenParameter,
    shape: &Shape,
    value: &Written,
) -> Result<Value, ExprFault>
    requires { scope.old.sees_variables ≡ true }
    ensures form { Gives result (default_checked definitions.now is_entry (in_default scope.old) written.now shape.now value.now) }
    ensures new { IsOk result → is_declared scope.old.blocks written.now.name ≡ false }
    ensures kept { OnOk result (scope.new ≡ scope.old) }
{
    scope.enter_default();
    let default = default_value(alloc, scope, definitions, is_entry, written, shape, value)?;
    scope.leave_default();
    Ok(default)
}

// A default, in its own scope.
fn default_value(
    alloc: Global,
    scope: &Scope,
    definitions: &Definitions,
    is_entry: bool,
    written: &WrittenParameter,
    shape: &Shape,
    value: &Written,
) -> Result<Value, ExprFault>
    ensures form { Gives result (default_checked definitions.now is_entry scope.now written.now shape.now value.now) }
    ensures new { IsOk result → is_declared scope.now.blocks written.now.name ≡ false }
{
    let given = begin_initialiser(alloc, scope, definitions, value, shape)?;
    default_of(alloc, scope, definitions, is_entry, written, shape, given)
}

// The value of a default that is begun.
fn default_of(
    alloc: Global,
    scope: &Scope,
    definitions: &Definitions,
    is_entry: bool,
    written: &WrittenParameter,
    shape: &Shape,
    given: Option<Begun>,
) -> Result<Value, ExprFault>
    ensures form { Gives result (default_valued definitions.now is_entry scope.now written.now shape.now given) }
    ensures new { IsOk result → is_declared scope.now.blocks written.now.name ≡ false }
{
    let is_twice = scope.is_declared(written.name.as_slice());
    let begun = check_begun_new(scope, written.token, is_twice, shape.base(), given)?;
    check_plain(scope.unit(), written.token, is_entry, shape)?;
    check_first_value(alloc, scope.unit(), written.token, definitions, &begun.form)
}

// A parameter of the entry is plain.
fn check_plain(unit: u32, token: u32, is_entry: bool, shape: &Shape) -> Result<(), ExprFault>
    ensures { Gives result (rule_at unit token (plain_rule is_entry shape.now)) }
{
    if is_entry && !is_plain(shape) {
        return Err(broken(unit, token, CheckKind::BadEntry));
    }
    Ok(())
}

// Whether a shape is of no struct and has no open size.
fn is_plain(shape: &Shape) -> bool
    ensures { result ≡ is_plain shape.now }
{
    match shape.base() {
        Base::Scalar(_) => is_stated(shape),
        Base::Struct(_) => false,
    }
}

// A parameter.
fn parameter_form(
    alloc: Global,
    unit: u32,
    written: &WrittenParameter,
    shape: Shape,
    default: Option<Value>,
) -> Result<Parameter, Memory>
    ensures { IfOk result (λ q. q ≡ parameter_form unit written.now shape default) }
{
    let name = written.name.copy(alloc)?;
    Ok(Parameter {
        name,
        node: node_of(unit, written.token),
        shape,
        is_output: is_marked_output(written.direction),
        level: written.level,
        default,
    })
}

// Whether a parameter is marked as an output.
fn is_marked_output(direction: Option<Direction>) -> bool
    ensures { result ≡ is_marked_output direction }
{
    match direction {
        Some(Direction::Output) => true,
        Some(Direction::Input) => false,
        None => false,
    }
}
