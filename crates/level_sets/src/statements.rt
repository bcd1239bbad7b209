//! What the rules find in statements.

ghost use Rattle.std.specs.Prelude.{map};
ghost use Rattle.level_rules.specs.Rules.{seen_all, walk_all, walk_arms, walk_otherwise, walk_loop, walk_placed, no_walk, walk_return, look_operand, look_initialiser, look_first, look_assignment, look_items, look_item, look_returned, walk_declaration, walk_assignment, walk_start, walk_statement};
ghost use Rattle.level_sets.specs.Scene.{known_of, around_of, Sees, Walks, arm_walk, otherwise_walk};

use crate::leaves::how_it_turns;
use crate::look::{look, look_call, look_operand, look_place};
use crate::scene::Scene;
use crate::tell::either;
use ctl_base::Memory;
use ctl_types::{
    Arm, Assignment, Declaration, ForStart, Initialiser, Operand, PrintItem, TypedStatement,
};
use level_rules::{Found, Holder};
use sqlite_items::Boxed;
use std::alloc::Global;

#[cycle(initialiser)]
fn look_initialiser(
    alloc: Global,
    initialiser: &Initialiser,
    scene: &Scene<'_>,
    control: bool,
    found: &mut Found,
) -> Result<bool, Memory>
    ensures { Sees found.old found.new (look_initialiser (known_of scene.now) initialiser.now (around_of scene.now) control) result }
{
    match initialiser {
        Initialiser::Value(operand) => look_operand(alloc, operand, scene, control, found),
        Initialiser::Elements(_, parts) => {
            look_parts(alloc, parts.as_slice(), scene, control, found)
        }
        Initialiser::Fields(_, parts) => look_parts(alloc, parts.as_slice(), scene, control, found),
    }
}

#[cycle(initialiser)]
fn look_parts(
    alloc: Global,
    parts: &[Initialiser],
    scene: &Scene<'_>,
    control: bool,
    found: &mut Found,
) -> Result<bool, Memory>
    ensures { Sees found.old found.new (seen_all (map (look_initialiser (known_of scene.now)) parts.now) (around_of scene.now) control) result }
{
    let mut any = false;
    for part in parts {
        let varies = look_initialiser(alloc, part, scene, control, found)?;
        any = either(any, varies);
    }
    Ok(any)
}

fn look_first(
    alloc: Global,
    first: &Option<Initialiser>,
    scene: &Scene<'_>,
    control: bool,
    found: &mut Found,
) -> Result<bool, Memory>
    ensures { Sees found.old found.new (look_first (known_of scene.now) first.now (around_of scene.now) control) result }
{
    match first {
        Some(initialiser) => look_initialiser(alloc, initialiser, scene, control, found),
        None => Ok(false),
    }
}

fn walk_declaration(
    alloc: Global,
    declaration: &Declaration,
    scene: &Scene<'_>,
    control: bool,
    found: &mut Found,
) -> Result<bool, Memory>
    ensures { Walks found.old found.new (walk_declaration (known_of scene.now) declaration.now (around_of scene.now) control) result }
{
    let varies = look_first(alloc, &declaration.first, scene, control, found)?;
    found.put(
        either(control, varies),
        Holder::Variable(declaration.variable),
    )?;
    Ok(false)
}

fn look_assignment(
    alloc: Global,
    assignment: &Assignment,
    scene: &Scene<'_>,
    control: bool,
    found: &mut Found,
) -> Result<bool, Memory>
    ensures { Sees found.old found.new (look_assignment (known_of scene.now) assignment.now (around_of scene.now) control) result }
{
    let index = look_place(alloc, &assignment.place, scene, control, found)?;
    let value = look_operand(alloc, &assignment.value, scene, control, found)?;
    Ok(either(index, value))
}

fn walk_assignment(
    alloc: Global,
    assignment: &Assignment,
    scene: &Scene<'_>,
    control: bool,
    found: &mut Found,
) -> Result<bool, Memory>
    ensures { Walks found.old found.new (walk_assignment (known_of scene.now) assignment.now (around_of scene.now) control) result }
{
    let varies = look_assignment(alloc, assignment, scene, control, found)?;
    found.put(
        either(control, varies),
        Holder::Variable(assignment.place.variable),
    )?;
    Ok(false)
}

fn walk_start(
    alloc: Global,
    start: &ForStart,
    scene: &Scene<'_>,
    control: bool,
    found: &mut Found,
) -> Result<bool, Memory>
    ensures { Walks found.old found.new (walk_start (known_of scene.now) start.now (around_of scene.now) control) result }
{
    match start {
        ForStart::Declare(declaration) => {
            walk_declaration(alloc, declaration, scene, control, found)
        }
        ForStart::Assign(assignment) => walk_assignment(alloc, assignment, scene, control, found),
    }
}

fn look_item(
    alloc: Global,
    item: &PrintItem,
    scene: &Scene<'_>,
    control: bool,
    found: &mut Found,
) -> Result<bool, Memory>
    ensures { Sees found.old found.new (look_item (known_of scene.now) item.now (around_of scene.now) control) result }
{
    match item {
        PrintItem::Text(_) => Ok(false),
        PrintItem::Value(expr) => look(alloc, expr, scene, control, found),
    }
}

fn look_items(
    alloc: Global,
    items: &[PrintItem],
    scene: &Scene<'_>,
    control: bool,
    found: &mut Found,
) -> Result<bool, Memory>
    ensures { Sees found.old found.new (look_items (known_of scene.now) items.now (around_of scene.now) control) result }
{
    let mut any = false;
    for item in items {
        let varies = look_item(alloc, item, scene, control, found)?;
        any = either(any, varies);
    }
    Ok(any)
}

fn look_returned(
    alloc: Global,
    operand: &Option<Boxed<Operand>>,
    scene: &Scene<'_>,
    control: bool,
    found: &mut Found,
) -> Result<bool, Memory>
    ensures { Sees found.old found.new (look_returned (known_of scene.now) operand.now (around_of scene.now) control) result }
{
    match operand {
        Some(operand) => look_operand(alloc, operand.get(), scene, control, found),
        None => Ok(false),
    }
}

fn walk_return(
    alloc: Global,
    operand: &Option<Boxed<Operand>>,
    scene: &Scene<'_>,
    control: bool,
    found: &mut Found,
) -> Result<bool, Memory>
    ensures { Walks found.old found.new (walk_return (look_returned (known_of scene.now) operand.now) (around_of scene.now) control) result }
{
    let varies = look_returned(alloc, operand, scene, control, found)?;
    found.put(either(control, varies), Holder::Result)?;
    Ok(control)
}

/// Whether a statement has a return of varying control. What is found in it is put behind what was found before.
#[cycle(walk)]
pub fn walk(
    alloc: Global,
    statement: &TypedStatement,
    scene: &Scene<'_>,
    control: bool,
    found: &mut Found,
) -> Result<bool, Memory>
    ensures { Walks found.old found.new (walk_statement (known_of scene.now) statement.now (around_of scene.now) control) result }
{
    found.place(control)?;
    match statement {
        TypedStatement::Empty => Ok(false),
        TypedStatement::Block(statements) => {
            walk_all(alloc, statements.as_slice(), scene, control, found)
        }
        TypedStatement::Declare(declaration) => {
            walk_declaration(alloc, declaration.get(), scene, control, found)
        }
        TypedStatement::Assign(assignment) => {
            walk_assignment(alloc, assignment.get(), scene, control, found)
        }
        TypedStatement::Call(call) => {
            look_call(alloc, call.get(), scene, control, found)?;
            Ok(false)
        }
        TypedStatement::If(arms, otherwise) => {
            walk_if(alloc, arms.as_slice(), otherwise, scene, control, found)
        }
        TypedStatement::While(test, body, _) => {
            walk_while(alloc, test.get(), body.get(), scene, control, found)
        }
        TypedStatement::For(start, test, next, body, _) => {
            found.place(control)?;
            walk_start(alloc, start.get(), scene, control, found)?;
            walk_turns(
                alloc,
                test.get(),
                next.get(),
                body.get(),
                scene,
                control,
                found,
            )
        }
        TypedStatement::Return(operand) => walk_return(alloc, operand, scene, control, found),
        TypedStatement::Print(items) => {
            look_items(alloc, items.as_slice(), scene, control, found)?;
            Ok(false)
        }
    }
}

// What is after a return of varying control has varying control.
#[cycle(walk)]
fn walk_all(
    alloc: Global,
    statements: &[TypedStatement],
    scene: &Scene<'_>,
    control: bool,
    found: &mut Found,
) -> Result<bool, Memory>
    ensures { Walks found.old found.new (walk_all (map (walk_statement (known_of scene.now)) statements.now) (around_of scene.now) control) result }
{
    let mut any = false;
    let mut now = control;
    for statement in statements {
        let one = walk(alloc, statement, scene, now, found)?;
        any = either(any, one);
        now = either(now, one);
    }
    Ok(any)
}

#[cycle(walk)]
fn walk_if(
    alloc: Global,
    arms: &[Arm],
    otherwise: &Option<Boxed<TypedStatement>>,
    scene: &Scene<'_>,
    control: bool,
    found: &mut Found,
) -> Result<bool, Memory>
    ensures { Walks found.old found.new (walk_arms (map (arm_walk scene.now) arms.now) (walk_otherwise (otherwise_walk scene.now otherwise.now)) (around_of scene.now) control) result }
{
    let mut any = false;
    let mut now = control;
    for arm in arms {
        found.place(now)?;
        let varies = look_operand(alloc, &arm.test, scene, now, found)?;
        now = either(now, varies);
        let one = walk(alloc, arm.body.get(), scene, now, found)?;
        any = either(any, one);
        now = either(now, one);
    }
    let last = walk_last(alloc, otherwise, scene, now, found)?;
    Ok(either(any, last))
}

// What stands after the last `else`.
#[cycle(walk)]
fn walk_last(
    alloc: Global,
    otherwise: &Option<Boxed<TypedStatement>>,
    scene: &Scene<'_>,
    control: bool,
    found: &mut Found,
) -> Result<bool, Memory>
    ensures { Walks found.old found.new (walk_otherwise (otherwise_walk scene.now otherwise.now) (around_of scene.now) control) result }
{
    match otherwise {
        Some(statement) => walk(alloc, statement.get(), scene, control, found),
        None => Ok(false),
    }
}

#[cycle(walk)]
fn walk_while(
    alloc: Global,
    test: &Operand,
    body: &TypedStatement,
    scene: &Scene<'_>,
    control: bool,
    found: &mut Found,
) -> Result<bool, Memory>
    ensures { Walks found.old found.new (walk_loop (look_operand (known_of scene.now) test.now) no_walk (walk_statement (known_of scene.now) body.now) (around_of scene.now) control) result }
{
    let turning = how_it_turns(alloc, test, body, scene, control)?;
    found.place(turning.control)?;
    look_operand(alloc, test, scene, turning.control, found)?;
    walk(alloc, body, scene, turning.control, found)?;
    Ok(turning.leaves)
}

#[cycle(walk)]
fn walk_turns(
    alloc: Global,
    test: &Operand,
    next: &Assignment,
    body: &TypedStatement,
    scene: &Scene<'_>,
    control: bool,
    found: &mut Found,
) -> Result<bool, Memory>
    ensures { Walks found.old found.new (walk_loop (look_operand (known_of scene.now) test.now) (walk_placed (walk_assignment (known_of scene.now) next.now)) (walk_statement (known_of scene.now) body.now) (around_of scene.now) control) result }
{
    let turning = how_it_turns(alloc, test, body, scene, control)?;
    found.place(turning.control)?;
    look_operand(alloc, test, scene, turning.control, found)?;
    found.place(turning.control)?;
    walk_assignment(alloc, next, scene, turning.control, found)?;
    walk(alloc, body, scene, turning.control, found)?;
    Ok(turning.leaves)
}
