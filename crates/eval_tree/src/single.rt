//! What single forms make of values, without a run of their own.

ghost use Rattle.std.specs.Prelude.{◌≡◌, ℕ, Some, slice_get};
ghost use Rattle.ctl_types.specs.Values.{Env, var_of, part_of};
ghost use Rattle.ctl_types.specs.declared.value.Value.{Value as ValueForm, out-Value};
ghost use Rattle.ctl_types.specs.Shapes.{size_in};
ghost use Rattle.ctl_types.specs.Scalars.{operate_alone};
ghost use Rattle.fix_num.specs.declared.TheConstants.{FRACTION};
ghost use Rattle.ctl_types.specs.Run.{decider};
ghost use Rattle.eval_values.specs.Uncounted.{Gives, pixel, go_on, give, held, found, index_in, field_in, index_number, word, give_scalar, operated, convert, sized};
ghost use Rattle.eval_values.specs.Means.{bool_in, size_in_int};
ghost use Rattle.eval_tree.specs.Scene.{values_of};

use crate::scene::Scene;
use ctl_base::{Node, ScalarKind};
use ctl_tree::UnaryOperator;
use ctl_types::{Conversion, Logic, Scalar, Size, TypedLink, Value};
use eval_values::{
    Stop, convert, field_in, found, index_in, linked, number_of, truth_of, unary, variable_of,
};
use sqlite_items::at;
use std::alloc::Global;

pub fn constant(alloc: Global, scene: &Scene<'_>, number: u32) -> Result<Value, Stop>
    ensures { (env : Env) (turns : ℕ) → Gives (λ v. v) result env turns (held (slice_get (values_of scene.now.constants) number) give (pixel env turns)) }
{
    match at(scene.constants(), number as usize) {
        Some(constant) => Ok(constant.value.copy(alloc)?),
        None => Err(Stop::Wrong),
    }
}

pub fn variable(alloc: Global, env: &[Option<Value>], x: u32) -> Result<Value, Stop>
    ensures { (turns : ℕ) → Gives (λ v. v) result env.now turns (held (var_of env.now x) give (pixel env.now turns)) }
{
    match variable_of(env, x) {
        Some(value) => Ok(value.copy(alloc)?),
        None => Err(Stop::Wrong),
    }
}

#[tactic(auto, using(crate::proofs::Forms::unary_is))]
pub fn unary_value(op: UnaryOperator, kind: ScalarKind, value: &Value) -> Result<Value, Stop>
    ensures { (env : Env) (turns : ℕ) → Gives (λ v. v) result env turns (word kind (λ a. give_scalar kind (operate_alone FRACTION op kind a)) value.now (pixel env turns)) }
{
    match unary(op, kind, value) {
        Some(scalar) => Ok(Value::One(scalar)),
        None => Err(Stop::Wrong),
    }
}

pub fn linked_value(link: &TypedLink, left: &Value, right: &Value) -> Result<Value, Stop>
    ensures { (env : Env) (turns : ℕ) → Gives (λ v. v) result env turns (go_on (convert link.now.left left.now (pixel env turns)) (λ (v : ValueForm). operated link.now.operator link.now.kind v right.now)) }
{
    match linked(link.left, link.operator, link.kind, left, right) {
        Some(scalar) => Ok(Value::One(scalar)),
        None => Err(Stop::Wrong),
    }
}

pub fn sized_value(scene: &Scene<'_>, size: Size) -> Result<Value, Stop>
    ensures { (env : Env) (turns : ℕ) → Gives (λ v. v) result env turns (sized (size_in scene.now.opens size) (pixel env turns)) }
{
    match size_value(scene, size) {
        Some(scalar) => Ok(Value::One(scalar)),
        None => Err(Stop::Wrong),
    }
}

#[tactic(auto, using(crate::proofs::Forms::convert_is))]
pub fn converted(conversion: Conversion, value: Value) -> Result<Value, Stop>
    ensures { (env : Env) (turns : ℕ) → Gives (λ v. v) result env turns (convert conversion value (pixel env turns)) }
{
    match convert(conversion, value) {
        Some(value) => Ok(value),
        None => Err(Stop::Wrong),
    }
}

// The number of the element that an index names.
pub fn element(whole: &Value, index: &Value, node: Node) -> Result<usize, Stop>
    ensures { (env : Env) (turns : ℕ) → Gives (λ i. i) result env turns (index_number (out-Value index.now) (λ z p. held (Some whole.now) (λ (v : ValueForm). index_in node z (out-Value v)) p) (pixel env turns)) }
{
    match number_of(index) {
        Some(number) => index_in(whole, number, node),
        None => Err(Stop::Wrong),
    }
}

pub fn truth(value: &Value) -> Result<bool, Stop>
    ensures { (env : Env) (turns : ℕ) → Gives (λ b. b) result env turns (held (bool_in value.now) give (pixel env turns)) }
{
    match truth_of(value) {
        Some(truth) => Ok(truth),
        None => Err(Stop::Wrong),
    }
}

pub fn part_value(alloc: Global, whole: &Value, number: usize) -> Result<Value, Stop>
    ensures { (env : Env) (turns : ℕ) → Gives (λ v. v) result env turns (held (part_of (Some whole.now) number) give (pixel env turns)) }
{
    match whole.part(number) {
        Some(part) => Ok(part.copy(alloc)?),
        None => Err(Stop::Wrong),
    }
}

pub fn found_field(
    env: &[Option<Value>],
    x: u32,
    path: &[usize],
    number: u32,
) -> Result<usize, Stop>
    ensures { (turns : ℕ) → Gives (λ i. i) result env.now turns (held (found x path.now env.now) (λ (v : ValueForm). field_in number (out-Value v)) (pixel env.now turns)) }
{
    match found(env, x, path) {
        Some(whole) => field_in(whole, number),
        None => Err(Stop::Wrong),
    }
}

pub fn found_element(
    env: &[Option<Value>],
    x: u32,
    path: &[usize],
    index: &Value,
    node: Node,
) -> Result<usize, Stop>
    ensures { (turns : ℕ) → Gives (λ i. i) result env.now turns (index_number (out-Value index.now) (λ z p. held (found x path.now p.env) (λ (v : ValueForm). index_in node z (out-Value v)) p) (pixel env.now turns)) }
{
    let Some(number) = number_of(index) else {
        return Err(Stop::Wrong);
    };
    match found(env, x, path) {
        Some(whole) => index_in(whole, number, node),
        None => Err(Stop::Wrong),
    }
}

pub fn decider_of(logic: Logic) -> bool
    ensures { result ≡ decider logic }
{
    match logic {
        Logic::And => false,
        Logic::Or => true,
    }
}

fn int_of(size: u32) -> Option<Scalar>
    ensures { result ≡ size_in_int size }
{
    if size <= i32::MAX as u32 {
        Some(Scalar::Int(size as i32))
    } else {
        None
    }
}

fn size_value(scene: &Scene<'_>, size: Size) -> Option<Scalar>
    ensures { result ≡ size_in_int (size_in scene.now.opens size) }
{
    match size {
        Size::Stated(size) => int_of(size),
        Size::Open(number) => match scene.opens().get(number as usize) {
            Some(size) => int_of(*size),
            None => Some(Scalar::Int(0)),
        },
    }
}
