//! The number that a size expression is.

ghost use Rattle.std.specs.Prelude.{◌≡◌, IfOk};
ghost use Rattle.ctl_types.specs.declared.scalar.Scalar.TheVariants as number;
ghost use Rattle.ctl_types.specs.declared.value.Value.{out-Value};
ghost use Rattle.ctl_check_size.specs.Constants.{constant_form};
ghost use Rattle.ctl_check_size.specs.Numbers.{in_limits, scalar_size, value_size, outcome_size, size_outcome, constant_size, size_number};

use crate::constants::constant_form;
use ctl_base::limits::ARRAY_SIZE;
use ctl_base::{Memory, ScalarKind};
use ctl_check_rules::{Checked, operand, scalar_kind};
use ctl_eval::{ValueEnd, evaluate};
use ctl_program::Definitions;
use ctl_types::{Conversion, Initialiser, Scalar, TypedExpr, Value};
use std::alloc::Global;

// A number from 1 to the limit of arrays.
fn in_limits(n: u32) -> Option<u32>
    ensures { result ≡ in_limits n }
{
    if 1 <= n && n <= ARRAY_SIZE {
        Some(n)
    } else {
        None
    }
}

// An int or an unsigned in these limits.
fn scalar_size(scalar: Scalar) -> Option<u32>
    ensures { result ≡ scalar_size scalar }
{
    match scalar {
        Scalar::Int(n) => int_size(n),
        Scalar::Unsigned(n) => in_limits(n),
        Scalar::Bool(_) => None,
        Scalar::Half(_) => None,
        Scalar::Float(_) => None,
    }
}

// An int in these limits.
fn int_size(n: i32) -> Option<u32>
    ensures { result ≡ scalar_size (number.Int n) }
{
    if n < 0 {
        None
    } else {
        in_limits(n.unsigned_abs())
    }
}

// A value in these limits.
fn value_size(value: &Value) -> Option<u32>
    ensures { result ≡ value_size (out-Value value.now) }
{
    match value {
        Value::One(scalar) => scalar_size(*scalar),
        Value::List(_) => None,
        Value::Fields(_) => None,
    }
}

// The size that an expression of constants gives. A literal needs no run.
fn outcome_size(
    alloc: Global,
    definitions: &Definitions,
    form: TypedExpr,
) -> Result<Option<u32>, Memory>
    ensures { IfOk result (λ n. n ≡ outcome_size (size_outcome definitions.now form)) }
{
    match form {
        TypedExpr::Literal(scalar) => Ok(scalar_size(scalar)),
        form => run_size(alloc, definitions, form),
    }
}

// The size that a run gives, where it ends in a value.
fn run_size(
    alloc: Global,
    definitions: &Definitions,
    form: TypedExpr,
) -> Result<Option<u32>, Memory>
    ensures { IfOk result (λ n. n ≡ outcome_size (size_outcome definitions.now form)) }
{
    let initialiser = Initialiser::Value(operand(form, Conversion::Same));
    match evaluate(alloc, definitions, &initialiser, 0)? {
        Some(ValueEnd::Value { value, turns: _ }) => Ok(value_size(&value)),
        Some(ValueEnd::Trap { kind: _, node: _ }) => Ok(None),
        None => Ok(None),
    }
}

// The size that an expression gives, where it can be one.
fn constant_size(
    alloc: Global,
    definitions: &Definitions,
    expr: &TypedExpr,
) -> Result<Option<u32>, Memory>
    ensures { IfOk result (λ n. n ≡ constant_size definitions.now (constant_form expr.now)) }
{
    match constant_form(alloc, expr)? {
        Some(form) => outcome_size(alloc, definitions, form),
        None => Ok(None),
    }
}

/// The number that a size expression is, where it is an int or an unsigned, can be a size, and ends in a number that
/// an array can have.
pub(crate) fn size_number(
    alloc: Global,
    definitions: &Definitions,
    checked: &Checked,
) -> Result<Option<u32>, Memory>
    ensures { IfOk result (λ n. n ≡ size_number definitions.now checked.now) }
{
    match scalar_kind(checked) {
        Some(ScalarKind::Int) => constant_size(alloc, definitions, &checked.form),
        Some(ScalarKind::Unsigned) => constant_size(alloc, definitions, &checked.form),
        Some(ScalarKind::Bool) => Ok(None),
        Some(ScalarKind::Half) => Ok(None),
        Some(ScalarKind::Float) => Ok(None),
        None => Ok(None),
    }
}
