//! The parts of statements.

ghost use Rattle.std.specs.Prelude.{◌+◌, ◌*◌, map};
ghost use Rattle.ctl_types.specs.Shapes.{struct_counts};
ghost use Rattle.level_counts.specs.Told.{total, Tells};
ghost use Rattle.level_counts.specs.Shapes.{scalars_in, stated_shape};
ghost use Rattle.level_counts.specs.Parts.{operand_parts, assignment_parts, declaration_parts, first_parts, start_parts, item_parts, returned_parts, initialiser_parts, statement_parts, arm_parts, otherwise_statement_parts, call_measure};

use crate::definitions::Definitions;
use crate::expressions::{measure, measure_call, operand_parts, place_parts};
use crate::measured::own_parts;
use crate::told::{and, times};
use crate::value::{Item, ValueShape, value_of_shape};
use ctl_base::Memory;
use ctl_types::{
    Arm, Assignment, Declaration, ForStart, Initialiser, Operand, PrintItem, Shape, TypedCall,
    TypedStatement,
};
use sqlite_items::Boxed;
use std::alloc::Global;

// What a brace list of so many elements of a shape counts itself.
fn list_parts(
    alloc: Global,
    count: usize,
    shape: &Shape,
    definitions: &Definitions<'_>,
) -> Result<u64, Memory>
    ensures { Tells (1 + count * scalars_in (struct_counts definitions.now.structs) (stated_shape shape.now)) result }
{
    let element = value_of_shape(alloc, shape)?;
    Ok(and(1, times(count as u64, definitions.scalars(&element))))
}

#[cycle(initialiser)]
fn initialiser_parts(
    alloc: Global,
    initialiser: &Initialiser,
    definitions: &Definitions<'_>,
    variables: &[Option<ValueShape>],
) -> Result<u64, Memory>
    ensures { Tells (initialiser_parts definitions.now variables.now initialiser.now) result }
{
    match initialiser {
        Initialiser::Value(operand) => operand_parts(alloc, operand, definitions, variables),
        Initialiser::Elements(shape, parts) => {
            let inner = inner_parts(alloc, parts.as_slice(), definitions, variables)?;
            let own = list_parts(alloc, parts.len(), shape, definitions)?;
            Ok(and(inner, own))
        }
        Initialiser::Fields(number, parts) => {
            let inner = inner_parts(alloc, parts.as_slice(), definitions, variables)?;
            let value = ValueShape::alone(alloc, Item::Struct(*number));
            Ok(and(inner, own_parts(definitions, &value)))
        }
    }
}

#[cycle(initialiser)]
fn inner_parts(
    alloc: Global,
    initialisers: &[Initialiser],
    definitions: &Definitions<'_>,
    variables: &[Option<ValueShape>],
) -> Result<u64, Memory>
    ensures { Tells (total (map (initialiser_parts definitions.now variables.now) initialisers.now)) result }
{
    let mut parts = 0;
    for initialiser in initialisers {
        let more = initialiser_parts(alloc, initialiser, definitions, variables)?;
        parts = and(parts, more);
    }
    Ok(parts)
}

fn first_parts(
    alloc: Global,
    first: &Option<Initialiser>,
    definitions: &Definitions<'_>,
    variables: &[Option<ValueShape>],
) -> Result<u64, Memory>
    ensures { Tells (first_parts definitions.now variables.now first.now) result }
{
    match first {
        Some(initialiser) => initialiser_parts(alloc, initialiser, definitions, variables),
        None => Ok(0),
    }
}

fn declaration_parts(
    alloc: Global,
    declaration: &Declaration,
    definitions: &Definitions<'_>,
    variables: &[Option<ValueShape>],
) -> Result<u64, Memory>
    ensures { Tells (declaration_parts definitions.now variables.now declaration.now) result }
{
    let first = first_parts(alloc, &declaration.first, definitions, variables)?;
    Ok(and(1, first))
}

fn assignment_parts(
    alloc: Global,
    assignment: &Assignment,
    definitions: &Definitions<'_>,
    variables: &[Option<ValueShape>],
) -> Result<u64, Memory>
    ensures { Tells (assignment_parts definitions.now variables.now assignment.now) result }
{
    let place = place_parts(alloc, &assignment.place, definitions, variables)?;
    let value = operand_parts(alloc, &assignment.value, definitions, variables)?;
    Ok(and(1, and(place, value)))
}

fn start_parts(
    alloc: Global,
    start: &ForStart,
    definitions: &Definitions<'_>,
    variables: &[Option<ValueShape>],
) -> Result<u64, Memory>
    ensures { Tells (start_parts definitions.now variables.now start.now) result }
{
    match start {
        ForStart::Declare(declaration) => {
            declaration_parts(alloc, declaration, definitions, variables)
        }
        ForStart::Assign(assignment) => assignment_parts(alloc, assignment, definitions, variables),
    }
}

fn item_parts(
    alloc: Global,
    item: &PrintItem,
    definitions: &Definitions<'_>,
    variables: &[Option<ValueShape>],
) -> Result<u64, Memory>
    ensures { Tells (item_parts definitions.now variables.now item.now) result }
{
    match item {
        PrintItem::Text(_) => Ok(0),
        PrintItem::Value(expr) => {
            let value = measure(alloc, expr, definitions, variables)?;
            Ok(value.parts)
        }
    }
}

fn items_parts(
    alloc: Global,
    items: &[PrintItem],
    definitions: &Definitions<'_>,
    variables: &[Option<ValueShape>],
) -> Result<u64, Memory>
    ensures { Tells (total (map (item_parts definitions.now variables.now) items.now)) result }
{
    let mut parts = 0;
    for item in items {
        let more = item_parts(alloc, item, definitions, variables)?;
        parts = and(parts, more);
    }
    Ok(parts)
}

fn returned_parts(
    alloc: Global,
    operand: &Option<Boxed<Operand>>,
    definitions: &Definitions<'_>,
    variables: &[Option<ValueShape>],
) -> Result<u64, Memory>
    ensures { Tells (returned_parts definitions.now variables.now operand.now) result }
{
    match operand {
        Some(operand) => operand_parts(alloc, operand.get(), definitions, variables),
        None => Ok(0),
    }
}

fn call_parts(
    alloc: Global,
    call: &TypedCall,
    definitions: &Definitions<'_>,
    variables: &[Option<ValueShape>],
) -> Result<u64, Memory>
    ensures { Tells (call_measure definitions.now variables.now call.now).parts result }
{
    let value = measure_call(alloc, call, definitions, variables)?;
    Ok(value.parts)
}

/// The parts of a statement.
#[cycle(statement)]
pub fn statement_parts(
    alloc: Global,
    statement: &TypedStatement,
    definitions: &Definitions<'_>,
    variables: &[Option<ValueShape>],
) -> Result<u64, Memory>
    ensures { Tells (statement_parts definitions.now variables.now statement.now) result }
{
    match statement {
        TypedStatement::Empty => Ok(1),
        TypedStatement::Block(statements) => {
            let inner = statements_parts(alloc, statements.as_slice(), definitions, variables)?;
            Ok(and(1, inner))
        }
        TypedStatement::Declare(declaration) => {
            declaration_parts(alloc, declaration.get(), definitions, variables)
        }
        TypedStatement::Assign(assignment) => {
            assignment_parts(alloc, assignment.get(), definitions, variables)
        }
        TypedStatement::Call(call) => {
            let inner = call_parts(alloc, call.get(), definitions, variables)?;
            Ok(and(1, inner))
        }
        TypedStatement::If(arms, otherwise) => {
            let inner = arms_parts(alloc, arms.as_slice(), definitions, variables)?;
            let last = otherwise_parts(alloc, otherwise, definitions, variables)?;
            Ok(and(1, and(inner, last)))
        }
        TypedStatement::While(test, body, _) => {
            let test = operand_parts(alloc, test.get(), definitions, variables)?;
            let body = statement_parts(alloc, body.get(), definitions, variables)?;
            Ok(and(1, and(test, body)))
        }
        TypedStatement::For(start, test, next, body, _) => {
            let start = start_parts(alloc, start.get(), definitions, variables)?;
            let test = operand_parts(alloc, test.get(), definitions, variables)?;
            let next = assignment_parts(alloc, next.get(), definitions, variables)?;
            let body = statement_parts(alloc, body.get(), definitions, variables)?;
            Ok(and(1, and(start, and(test, and(next, body)))))
        }
        TypedStatement::Return(operand) => {
            let inner = returned_parts(alloc, operand, definitions, variables)?;
            Ok(and(1, inner))
        }
        TypedStatement::Print(items) => {
            let inner = items_parts(alloc, items.as_slice(), definitions, variables)?;
            Ok(and(1, inner))
        }
    }
}

#[cycle(statement)]
fn statements_parts(
    alloc: Global,
    statements: &[TypedStatement],
    definitions: &Definitions<'_>,
    variables: &[Option<ValueShape>],
) -> Result<u64, Memory>
    ensures { Tells (total (map (statement_parts definitions.now variables.now) statements.now)) result }
{
    let mut parts = 0;
    for statement in statements {
        let more = statement_parts(alloc, statement, definitions, variables)?;
        parts = and(parts, more);
    }
    Ok(parts)
}

#[cycle(statement)]
fn arms_parts(
    alloc: Global,
    arms: &[Arm],
    definitions: &Definitions<'_>,
    variables: &[Option<ValueShape>],
) -> Result<u64, Memory>
    ensures { Tells (total (map (arm_parts definitions.now variables.now) arms.now)) result }
{
    let mut parts = 0;
    for arm in arms {
        let more = arm_parts(alloc, arm, definitions, variables)?;
        parts = and(parts, more);
    }
    Ok(parts)
}

#[cycle(statement)]
fn arm_parts(
    alloc: Global,
    arm: &Arm,
    definitions: &Definitions<'_>,
    variables: &[Option<ValueShape>],
) -> Result<u64, Memory>
    ensures { Tells (arm_parts definitions.now variables.now arm.now) result }
{
    let test = operand_parts(alloc, &arm.test, definitions, variables)?;
    let body = statement_parts(alloc, arm.body.get(), definitions, variables)?;
    Ok(and(1, and(test, body)))
}

#[cycle(statement)]
fn otherwise_parts(
    alloc: Global,
    otherwise: &Option<Boxed<TypedStatement>>,
    definitions: &Definitions<'_>,
    variables: &[Option<ValueShape>],
) -> Result<u64, Memory>
    ensures { Tells (otherwise_statement_parts definitions.now variables.now otherwise.now) result }
{
    match otherwise {
        Some(statement) => statement_parts(alloc, statement.get(), definitions, variables),
        None => Ok(0),
    }
}
