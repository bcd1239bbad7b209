//! What the forms make of values.

ghost use Rattle.std.specs.Prelude.{◌≡◌, ◌<◌, ℕ, pos, Some, None, Ok, Err, slice_get, length, IfErr, IfOk};
ghost use Rattle.std.specs.Option.{option_copied};
ghost use Rattle.ctl_base.specs.declared.kind.ScalarKind.TheVariants as kind;
ghost use Rattle.ctl_types.specs.declared.value.Value.{out-Value};
ghost use Rattle.ctl_types.specs.declared.expression.Conversion.TheVariants.{Between};
ghost use Rattle.ctl_types.specs.Values.{Env, var_of, part_of};
ghost use Rattle.ctl_types.specs.Scalars.{scalar};
ghost use Rattle.ctl_types.specs.Run.{converted_back, word_as};
ghost use Rattle.eval_values.specs.Uncounted.{Gives, pixel, held, give, scalar_in};
ghost use Rattle.eval_values.specs.Means.{onward, between_in, convert_in, unary_in, second_in, operated_in, linked_in, bool_in, number_in, number_form};

use crate::stop::Stop;
use ctl_base::{Node, ScalarKind, TrapKind};
use ctl_tree::UnaryOperator;
use ctl_types::{Conversion, LinkOperator, Scalar, Value};
use eval_scalars::{as_kind, is_of, of_one, of_two, zero_scalar};
use std::alloc::Global;

/// The value of a variable, where it is declared.
pub fn variable_of(env: &[Option<Value>], x: u32) -> Option<&Value>
    ensures { option_copied result ≡ var_of env.now x }
{
    let x = x as usize;
    if x < env.len() { env[x].as_ref() } else { None }
}

/// A value on its way to where it is taken.
pub fn convert(conversion: Conversion, value: Value) -> Option<Value>
    ensures { result ≡ convert_in conversion value }
{
    match conversion {
        Conversion::Same => Some(value),
        Conversion::Between(from, to) => between(from, to, &value),
    }
}

fn between(from: ScalarKind, to: ScalarKind, value: &Value) -> Option<Value>
    ensures { result ≡ onward (scalar_in value.now) (between_in from to) }
{
    match value {
        Value::One(scalar) => {
            if is_of(scalar, from) {
                Some(Value::One(as_kind(to, scalar)))
            } else {
                None
            }
        }
        _ => None,
    }
}

/// The value of a parameter, converted back to the place that it came from.
pub fn converted_back(conversion: Conversion, value: Value) -> Value
    ensures { result ≡ converted_back conversion value }
{
    match conversion {
        Conversion::Same => value,
        Conversion::Between(to, _) => Value::One(scalar_as(to, &value)),
    }
}

fn scalar_as(kind: ScalarKind, value: &Value) -> Scalar
    ensures { result ≡ scalar kind (word_as kind (out-Value value.now)) }
{
    match value {
        Value::One(scalar) => as_kind(kind, scalar),
        _ => zero_scalar(kind),
    }
}

/// What an operator before its operand makes of a value.
pub fn unary(op: UnaryOperator, kind: ScalarKind, value: &Value) -> Option<Scalar>
    ensures { result ≡ unary_in op kind value.now }
{
    match value {
        Value::One(scalar) => of_one(op, kind, scalar),
        _ => None,
    }
}

fn second(op: LinkOperator, kind: ScalarKind, a: &Scalar, right: &Value) -> Option<Scalar>
    ensures { result ≡ second_in op kind right.now a.now }
{
    match right {
        Value::One(b) => of_two(op, kind, a, b),
        _ => None,
    }
}

fn converted_second(
    from: ScalarKind,
    to: ScalarKind,
    op: LinkOperator,
    kind: ScalarKind,
    a: &Scalar,
    right: &Value,
) -> Option<Scalar>
    ensures { result ≡ onward (between_in from to a.now) (λ v. operated_in op kind v right.now) }
{
    if !is_of(a, from) {
        return None;
    }
    let a = as_kind(to, a);
    second(op, kind, &a, right)
}

/// What a link makes of the value on its left, which it converts, and that on its right.
pub fn linked(
    left: Conversion,
    op: LinkOperator,
    kind: ScalarKind,
    value: &Value,
    right: &Value,
) -> Option<Scalar>
    ensures { result ≡ linked_in left op kind value.now right.now }
{
    match value {
        Value::One(a) => match left {
            Conversion::Same => second(op, kind, a, right),
            Conversion::Between(from, to) => converted_second(from, to, op, kind, a, right),
        },
        _ => None,
    }
}

/// The truth that a value is.
pub fn truth_of(value: &Value) -> Option<bool>
    ensures { result ≡ bool_in value.now }
{
    match value {
        Value::One(scalar) => match scalar {
            Scalar::Bool(b) => Some(*b),
            _ => None,
        },
        _ => None,
    }
}

/// The number that an index is.
pub fn number_of(value: &Value) -> Option<i64>
    ensures { result ≡ number_in value.now }
{
    match value {
        Value::One(scalar) => number_of_scalar(scalar),
        _ => None,
    }
}

fn number_of_scalar(scalar: &Scalar) -> Option<i64>
    ensures { result ≡ number_form scalar.now }
{
    match scalar {
        Scalar::Bool(b) => Some(fix_num::of_bool(*b)),
        Scalar::Int(n) => Some(*n as i64),
        Scalar::Unsigned(n) => Some(*n as i64),
        Scalar::Half(_) => None,
        Scalar::Float(_) => None,
    }
}
