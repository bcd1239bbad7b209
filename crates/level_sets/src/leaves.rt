//! Whether statements have a return of varying control.

ghost use Rattle.std.specs.Prelude.{◌≡◌, IfOk, map};
ghost use Rattle.level_rules.specs.Rules.{walk_all, walk_arms, walk_otherwise, look_operand, walk_statement, loop_leaves, loop_control};
ghost use Rattle.level_sets.specs.Scene.{known_of, around_of, Leaves, arm_walk, otherwise_walk};

use crate::look::look_operand;
use crate::scene::Scene;
use crate::tell::either;
use ctl_base::Memory;
use ctl_types::{Arm, Operand, TypedStatement};
use level_rules::Found;
use sqlite_items::Boxed;
use std::alloc::Global;

/// Whether an operand varies, whatever is found in it.
pub fn operand_varies(
    alloc: Global,
    operand: &Operand,
    scene: &Scene<'_>,
    control: bool,
) -> Result<bool, Memory>
    ensures { IfOk result (λ varies. varies ≡ (look_operand (known_of scene.now) operand.now (around_of scene.now) control).varies) }
{
    let mut found = Found::new(alloc);
    look_operand(alloc, operand, scene, control, &mut found)
}

/// Whether a statement has a return of varying control.
#[cycle(leaves)]
pub fn leaves(
    alloc: Global,
    statement: &TypedStatement,
    scene: &Scene<'_>,
    control: bool,
) -> Result<bool, Memory>
    ensures { Leaves (walk_statement (known_of scene.now) statement.now (around_of scene.now) control).leaves result }
{
    match statement {
        TypedStatement::Empty => Ok(false),
        TypedStatement::Block(statements) => {
            leaves_all(alloc, statements.as_slice(), scene, control)
        }
        TypedStatement::Declare(_) => Ok(false),
        TypedStatement::Assign(_) => Ok(false),
        TypedStatement::Call(_) => Ok(false),
        TypedStatement::If(arms, otherwise) => {
            leaves_if(alloc, arms.as_slice(), otherwise, scene, control)
        }
        TypedStatement::While(test, body, _) => {
            leaves_loop(alloc, test.get(), body.get(), scene, control)
        }
        TypedStatement::For(_, test, _, body, _) => {
            leaves_loop(alloc, test.get(), body.get(), scene, control)
        }
        TypedStatement::Return(_) => Ok(control),
        TypedStatement::Print(_) => Ok(false),
    }
}

// What is after a return of varying control has varying control.
#[cycle(leaves)]
fn leaves_all(
    alloc: Global,
    statements: &[TypedStatement],
    scene: &Scene<'_>,
    control: bool,
) -> Result<bool, Memory>
    ensures { Leaves (walk_all (map (walk_statement (known_of scene.now)) statements.now) (around_of scene.now) control).leaves result }
{
    let mut any = false;
    let mut now = control;
    for statement in statements {
        let one = leaves(alloc, statement, scene, now)?;
        any = either(any, one);
        now = either(now, one);
    }
    Ok(any)
}

#[cycle(leaves)]
fn leaves_if(
    alloc: Global,
    arms: &[Arm],
    otherwise: &Option<Boxed<TypedStatement>>,
    scene: &Scene<'_>,
    control: bool,
) -> Result<bool, Memory>
    ensures { Leaves (walk_arms (map (arm_walk scene.now) arms.now) (walk_otherwise (otherwise_walk scene.now otherwise.now)) (around_of scene.now) control).leaves result }
{
    let mut any = false;
    let mut now = control;
    for arm in arms {
        let varies = operand_varies(alloc, &arm.test, scene, now)?;
        now = either(now, varies);
        let one = leaves(alloc, arm.body.get(), scene, now)?;
        any = either(any, one);
        now = either(now, one);
    }
    let last = leaves_otherwise(alloc, otherwise, scene, now)?;
    Ok(either(any, last))
}

#[cycle(leaves)]
fn leaves_otherwise(
    alloc: Global,
    otherwise: &Option<Boxed<TypedStatement>>,
    scene: &Scene<'_>,
    control: bool,
) -> Result<bool, Memory>
    ensures { Leaves (walk_otherwise (otherwise_walk scene.now otherwise.now) (around_of scene.now) control).leaves result }
{
    match otherwise {
        Some(statement) => leaves(alloc, statement.get(), scene, control),
        None => Ok(false),
    }
}

// A loop leaves where its body does.
#[cycle(leaves)]
fn leaves_loop(
    alloc: Global,
    test: &Operand,
    body: &TypedStatement,
    scene: &Scene<'_>,
    control: bool,
) -> Result<bool, Memory>
    ensures { Leaves (loop_leaves (look_operand (known_of scene.now) test.now) (walk_statement (known_of scene.now) body.now) (around_of scene.now) control) result }
{
    let varies = operand_varies(alloc, test, scene, control)?;
    leaves(alloc, body, scene, either(control, varies))
}

/// Whether a loop leaves, and whether its test, its last assignment and its body have varying control.
#[derive(Clone, Copy)]
pub struct Turning {
    pub leaves: bool,
    pub control: bool,
}

/// How a loop turns that stands at this control.
pub fn how_it_turns(
    alloc: Global,
    test: &Operand,
    body: &TypedStatement,
    scene: &Scene<'_>,
    control: bool,
) -> Result<Turning, Memory>
    ensures leaves { IfOk result (λ turning. turning.leaves ≡ loop_leaves (look_operand (known_of scene.now) test.now) (walk_statement (known_of scene.now) body.now) (around_of scene.now) control) }
    ensures control { IfOk result (λ turning. turning.control ≡ loop_control (look_operand (known_of scene.now) test.now) (walk_statement (known_of scene.now) body.now) (around_of scene.now) control) }
{
    let varies = operand_varies(alloc, test, scene, control)?;
    let tested = either(control, varies);
    let leaves = leaves(alloc, body, scene, tested)?;
    Ok(Turning {
        leaves,
        control: either(tested, leaves),
    })
}
