//! The shapes and the parts of expressions.

ghost use Rattle.std.specs.Prelude.{◌≡◌, ◌+◌, map, slice_get, IfOk};
ghost use Rattle.ctl_types.specs.Folds.{argument_fold, operand_fold, step_fold, link_fold};
ghost use Rattle.level_counts.specs.Told.{told, total, Tells};
ghost use Rattle.level_counts.specs.Shapes.{variable_value};
ghost use Rattle.level_counts.specs.Parts.{Measures, all_parts, index_parts, after_steps, steps_parts, measure_fold, expr_measure, operand_parts, call_measure, place_parts};

use crate::definitions::Definitions;
use crate::measured::{Measured, add_own, own_parts, scalar_of};
use crate::told::and;
use crate::value::{Item, ValueShape};
use ctl_base::Memory;
use ctl_types::{Argument, Operand, TypedCall, TypedExpr, TypedLink, TypedPlace, TypedStep};
use std::alloc::Global;

fn variable_value(
    alloc: Global,
    variables: &[Option<ValueShape>],
    number: u32,
) -> Result<ValueShape, Memory>
    ensures { IfOk result (λ value. value ≡ variable_value (slice_get variables.now number)) }
{
    match variables.get(number as usize) {
        Some(Some(value)) => value.copy(alloc),
        Some(None) => Ok(ValueShape::alone(alloc, Item::Nothing)),
        None => Ok(ValueShape::alone(alloc, Item::Nothing)),
    }
}

/// The shape of an expression's value, and its parts.
#[cycle(measure)]
pub fn measure(
    alloc: Global,
    expr: &TypedExpr,
    definitions: &Definitions<'_>,
    variables: &[Option<ValueShape>],
) -> Result<Measured, Memory>
    ensures { Measures (expr_measure definitions.now variables.now expr.now) result }
{
    match expr {
        TypedExpr::Literal(_) => Ok(scalar_of(alloc, definitions, 0)),
        TypedExpr::Constant(n) => {
            let value = definitions.constant(alloc, *n)?;
            Ok(add_own(definitions, 0, value))
        }
        TypedExpr::Variable(x) => {
            let value = variable_value(alloc, variables, *x)?;
            Ok(add_own(definitions, 0, value))
        }
        TypedExpr::Unary(_, _, operand) => {
            let inner = operand_parts(alloc, operand.get(), definitions, variables)?;
            Ok(scalar_of(alloc, definitions, inner))
        }
        TypedExpr::Chain(first, links) => {
            let inner = operand_parts(alloc, first.get(), definitions, variables)?;
            let more = links_parts(alloc, links.as_slice(), definitions, variables)?;
            Ok(scalar_of(alloc, definitions, and(inner, more)))
        }
        TypedExpr::Logic(_, operands) => {
            let inner = operands_parts(alloc, operands.as_slice(), definitions, variables)?;
            Ok(scalar_of(alloc, definitions, inner))
        }
        TypedExpr::Path(root, steps) => {
            let root = measure(alloc, root.get(), definitions, variables)?;
            measure_steps(alloc, steps.as_slice(), root, definitions, variables)
        }
        TypedExpr::Size(array, _) => {
            let inner = measure(alloc, array.get(), definitions, variables)?;
            Ok(scalar_of(alloc, definitions, inner.parts))
        }
        TypedExpr::Call(call) => measure_call(alloc, call.get(), definitions, variables),
    }
}

/// The parts of an operand.
#[cycle(measure)]
pub fn operand_parts(
    alloc: Global,
    operand: &Operand,
    definitions: &Definitions<'_>,
    variables: &[Option<ValueShape>],
) -> Result<u64, Memory>
    ensures { Tells (operand_parts definitions.now variables.now operand.now) result }
{
    let value = measure(alloc, &operand.value, definitions, variables)?;
    Ok(value.parts)
}

#[cycle(measure)]
fn links_parts(
    alloc: Global,
    links: &[TypedLink],
    definitions: &Definitions<'_>,
    variables: &[Option<ValueShape>],
) -> Result<u64, Memory>
    ensures { Tells (total (map (link_fold (measure_fold definitions.now variables.now)) links.now)) result }
{
    let mut parts = 0;
    for link in links {
        let more = link_parts(alloc, link, definitions, variables)?;
        parts = and(parts, more);
    }
    Ok(parts)
}

#[cycle(measure)]
fn link_parts(
    alloc: Global,
    link: &TypedLink,
    definitions: &Definitions<'_>,
    variables: &[Option<ValueShape>],
) -> Result<u64, Memory>
    ensures { Tells (link_fold (measure_fold definitions.now variables.now) link.now) result }
{
    operand_parts(alloc, &link.right, definitions, variables)
}

#[cycle(measure)]
fn operands_parts(
    alloc: Global,
    operands: &[Operand],
    definitions: &Definitions<'_>,
    variables: &[Option<ValueShape>],
) -> Result<u64, Memory>
    ensures { Tells (all_parts (map (operand_fold (measure_fold definitions.now variables.now)) operands.now)) result }
{
    let mut parts = 0;
    for operand in operands {
        let more = operand_parts(alloc, operand, definitions, variables)?;
        parts = and(parts, more);
    }
    Ok(parts)
}

// Each step into a value is an expression too.
#[cycle(measure)]
fn measure_steps(
    alloc: Global,
    steps: &[TypedStep],
    root: Measured,
    definitions: &Definitions<'_>,
    variables: &[Option<ValueShape>],
) -> Result<Measured, Memory>
    ensures value { IfOk result (λ m. m.value ≡ after_steps (map (step_fold (measure_fold definitions.now variables.now)) steps.now) root.value) }
    ensures parts { IfOk result (λ m. m.parts ≡ told (root.parts + steps_parts definitions.now (map (step_fold (measure_fold definitions.now variables.now)) steps.now) root.value)) }
{
    let mut parts = root.parts;
    let mut value = root.value;
    for step in steps {
        let index = step_parts(alloc, step, definitions, variables)?;
        value = after_step(alloc, step, &value, definitions, variables)?;
        parts = and(parts, and(index, own_parts(definitions, &value)));
    }
    Ok(Measured { value, parts })
}

// The parts of the index of a step.
#[cycle(measure)]
fn step_parts(
    alloc: Global,
    step: &TypedStep,
    definitions: &Definitions<'_>,
    variables: &[Option<ValueShape>],
) -> Result<u64, Memory>
    ensures { Tells (step_fold (measure_fold definitions.now variables.now) step.now).parts result }
{
    match step {
        TypedStep::Index(index, _) => {
            let index = measure(alloc, index, definitions, variables)?;
            Ok(index.parts)
        }
        TypedStep::Field(_) => Ok(0),
    }
}

// The shape after a step.
fn after_step(
    alloc: Global,
    step: &TypedStep,
    value: &ValueShape,
    definitions: &Definitions<'_>,
    variables: &[Option<ValueShape>],
) -> Result<ValueShape, Memory>
    ensures { IfOk result (λ after. after ≡ (step_fold (measure_fold definitions.now variables.now) step.now).after value.now) }
{
    let _count = variables.len();
    match step {
        TypedStep::Index(_, _) => value.element(alloc),
        TypedStep::Field(number) => definitions.field(alloc, value.item, *number),
    }
}

/// The parts of the indices of a place.
#[cycle(measure)]
pub fn place_parts(
    alloc: Global,
    place: &TypedPlace,
    definitions: &Definitions<'_>,
    variables: &[Option<ValueShape>],
) -> Result<u64, Memory>
    ensures { Tells (place_parts definitions.now variables.now place.now) result }
{
    indices_parts(alloc, place.steps.as_slice(), definitions, variables)
}

#[cycle(measure)]
fn indices_parts(
    alloc: Global,
    steps: &[TypedStep],
    definitions: &Definitions<'_>,
    variables: &[Option<ValueShape>],
) -> Result<u64, Memory>
    ensures { Tells (index_parts (map (step_fold (measure_fold definitions.now variables.now)) steps.now)) result }
{
    let mut parts = 0;
    for step in steps {
        let more = step_parts(alloc, step, definitions, variables)?;
        parts = and(parts, more);
    }
    Ok(parts)
}

/// The shape of a call's value, and its parts.
#[cycle(measure)]
pub fn measure_call(
    alloc: Global,
    call: &TypedCall,
    definitions: &Definitions<'_>,
    variables: &[Option<ValueShape>],
) -> Result<Measured, Memory>
    ensures { Measures (call_measure definitions.now variables.now call.now) result }
{
    let inner = arguments_parts(alloc, call.arguments.as_slice(), definitions, variables)?;
    let value = definitions.called(alloc, call.callee)?;
    Ok(add_own(definitions, inner, value))
}

#[cycle(measure)]
fn arguments_parts(
    alloc: Global,
    arguments: &[Argument],
    definitions: &Definitions<'_>,
    variables: &[Option<ValueShape>],
) -> Result<u64, Memory>
    ensures { Tells (total (map (argument_fold (measure_fold definitions.now variables.now)) arguments.now)) result }
{
    let mut parts = 0;
    for argument in arguments {
        let more = argument_parts(alloc, argument, definitions, variables)?;
        parts = and(parts, more);
    }
    Ok(parts)
}

#[cycle(measure)]
fn argument_parts(
    alloc: Global,
    argument: &Argument,
    definitions: &Definitions<'_>,
    variables: &[Option<ValueShape>],
) -> Result<u64, Memory>
    ensures { Tells (argument_fold (measure_fold definitions.now variables.now) argument.now) result }
{
    match argument {
        Argument::Input(operand, _) => operand_parts(alloc, operand, definitions, variables),
        Argument::Output(place, _, _) => place_parts(alloc, place, definitions, variables),
        Argument::Missing => Ok(0),
    }
}
