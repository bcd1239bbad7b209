//! The values that statements take: tests, and what is returned.

ghost use Rattle.std.specs.Prelude.{◌≡◌, Some};
ghost use Rattle.std.specs.Option.{option_copied};
ghost use Rattle.ctl_check_rules.specs.Faults.{Gives, rule_at};
ghost use Rattle.ctl_check_init.specs.Takings.{tested, value_rule, nothing_rule, returned_value, returned};

use ctl_base::ScalarKind;
use ctl_check_expr::check_value;
use ctl_check_rules::{Checked, ExprFault, broken, fitting, operand};
use ctl_program::Definitions;
use ctl_scope::{CheckKind, Scope};
use ctl_tree::{Expr, Return};
use ctl_types::{Operand, Shape};
use std::alloc::Global;

/// A value with what is done to it, and the greatest depth of a function of the program that is called in it.
#[derive(Drop)]
pub struct Taken {
    pub operand: Operand,
    pub depth: u32,
}

/// What is returned, and the greatest depth of a function of the program that is called in it.
#[derive(Drop)]
pub struct Returned {
    pub value: Option<Operand>,
    pub depth: u32,
}

/// The test of an `if`, a `while` or a `for` with this own token, or what is wrong with it. Its expression is checked
/// before the bodies that it decides, and this is told after them.
pub fn check_test(unit: u32, token: u32, test: Checked) -> Result<Taken, ExprFault>
    ensures { Gives result (tested unit token test) }
{
    let shape = Shape::Scalar(ScalarKind::Bool);
    let Some(conversion) = fitting(&shape, test.sizes.as_slice(), test.base) else {
        return Err(broken(unit, token, CheckKind::Mismatch));
    };
    Ok(Taken {
        operand: operand(test.form, conversion),
        depth: test.depth,
    })
}

/// A return in a function that gives a value of this shape, or none, or its first fault.
pub fn check_return(
    alloc: Global,
    scope: &Scope,
    definitions: &Definitions,
    gives: Option<&Shape>,
    written: &Return,
) -> Result<Returned, ExprFault>
    ensures { Gives result (returned scope.now definitions.now (option_copied gives.entry) written.now) }
{
    match &written.value {
        Some(value) => check_returned(alloc, scope, definitions, written.token, gives, value),
        None => check_nothing(scope.unit(), written.token, gives),
    }
}

// A return of a value.
fn check_returned(
    alloc: Global,
    scope: &Scope,
    definitions: &Definitions,
    token: u32,
    gives: Option<&Shape>,
    value: &Expr,
) -> Result<Returned, ExprFault>
    ensures { Gives result (returned_value scope.now definitions.now token (option_copied gives.entry) (Some value.now)) }
{
    let checked = check_value(alloc, scope, definitions, value)?;
    check_given(scope.unit(), token, gives, checked)
}

// The rule of a return of a value.
fn check_given(
    unit: u32,
    token: u32,
    gives: Option<&Shape>,
    checked: Checked,
) -> Result<Returned, ExprFault>
    ensures { Gives result (rule_at unit token (value_rule (option_copied gives.entry) checked)) }
{
    let Some(shape) = gives else {
        return Err(broken(unit, token, CheckKind::Mismatch));
    };
    let Some(conversion) = fitting(shape, checked.sizes.as_slice(), checked.base) else {
        return Err(broken(unit, token, CheckKind::Mismatch));
    };
    Ok(Returned {
        value: Some(operand(checked.form, conversion)),
        depth: checked.depth,
    })
}

// The rule of a return of nothing.
fn check_nothing(unit: u32, token: u32, gives: Option<&Shape>) -> Result<Returned, ExprFault>
    ensures { Gives result (rule_at unit token (nothing_rule (option_copied gives.entry))) }
{
    match gives {
        Some(_) => Err(broken(unit, token, CheckKind::Mismatch)),
        None => Ok(Returned {
            value: None,
            depth: 0,
        }),
    }
}
