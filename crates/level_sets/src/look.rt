//! Whether expressions vary, and what the rules find in them.

ghost use Rattle.std.specs.Prelude.{map, ◌∷◌, []};
ghost use Rattle.ctl_types.specs.Folds.{step_fold, link_fold};
ghost use Rattle.level_rules.specs.Rules.{seen_all, seen_logic, look_fold, look_expr, look_operand, look_call, look_place};
ghost use Rattle.level_sets.specs.Scene.{known_of, around_of, Sees};
ghost use Rattle.level_sets.specs.Calls.{argument_look, arguments_of, Passes};

use crate::calls::{Passed, call, is_barred, names, node_of, note, output_of};
use crate::scene::Scene;
use crate::tell::either;
use ctl_base::Memory;
use ctl_types::{Argument, Operand, TypedCall, TypedExpr, TypedLink, TypedPlace, TypedStep};
use level_rules::{Found, Holder};
use std::alloc::Global;

/// Whether an expression varies. What is found in it is put behind what was found before.
#[cycle(look)]
pub fn look(
    alloc: Global,
    expr: &TypedExpr,
    scene: &Scene<'_>,
    control: bool,
    found: &mut Found,
) -> Result<bool, Memory>
    ensures { Sees found.old found.new (look_expr (known_of scene.now) expr.now (around_of scene.now) control) result }
{
    match expr {
        TypedExpr::Literal(_) => Ok(false),
        TypedExpr::Constant(_) => Ok(false),
        TypedExpr::Variable(x) => Ok(scene.varies(Holder::Variable(*x))),
        TypedExpr::Unary(_, _, operand) => {
            look_operand(alloc, operand.get(), scene, control, found)
        }
        TypedExpr::Chain(first, links) => {
            let varies = look_operand(alloc, first.get(), scene, control, found)?;
            let more = look_links(alloc, links.as_slice(), scene, control, found)?;
            Ok(either(varies, more))
        }
        TypedExpr::Logic(_, operands) => {
            look_logic(alloc, operands.as_slice(), scene, control, found)
        }
        TypedExpr::Path(inner, steps) => {
            let varies = look(alloc, inner.get(), scene, control, found)?;
            let more = look_steps(alloc, steps.as_slice(), scene, control, found)?;
            Ok(either(varies, more))
        }
        TypedExpr::Size(inner, _) => {
            look(alloc, inner.get(), scene, control, found)?;
            Ok(false)
        }
        TypedExpr::Call(call) => look_call(alloc, call.get(), scene, control, found),
    }
}

/// Whether an operand varies.
#[cycle(look)]
pub fn look_operand(
    alloc: Global,
    operand: &Operand,
    scene: &Scene<'_>,
    control: bool,
    found: &mut Found,
) -> Result<bool, Memory>
    ensures { Sees found.old found.new (look_operand (known_of scene.now) operand.now (around_of scene.now) control) result }
{
    look(alloc, &operand.value, scene, control, found)
}

#[cycle(look)]
fn look_links(
    alloc: Global,
    links: &[TypedLink],
    scene: &Scene<'_>,
    control: bool,
    found: &mut Found,
) -> Result<bool, Memory>
    ensures { Sees found.old found.new (seen_all (map (link_fold (look_fold (known_of scene.now))) links.now) (around_of scene.now) control) result }
{
    let mut any = false;
    for link in links {
        let varies = look_link(alloc, link, scene, control, found)?;
        any = either(any, varies);
    }
    Ok(any)
}

#[cycle(look)]
fn look_link(
    alloc: Global,
    link: &TypedLink,
    scene: &Scene<'_>,
    control: bool,
    found: &mut Found,
) -> Result<bool, Memory>
    ensures { Sees found.old found.new (link_fold (look_fold (known_of scene.now)) link.now (around_of scene.now) control) result }
{
    look_operand(alloc, &link.right, scene, control, found)
}

// The operands after a varying one have varying control.
#[cycle(look)]
fn look_logic(
    alloc: Global,
    operands: &[Operand],
    scene: &Scene<'_>,
    control: bool,
    found: &mut Found,
) -> Result<bool, Memory>
    ensures { Sees found.old found.new (seen_logic (map (look_operand (known_of scene.now)) operands.now) (around_of scene.now) control) result }
{
    let mut any = false;
    let mut now = control;
    for operand in operands {
        found.place(now)?;
        let varies = look_operand(alloc, operand, scene, now, found)?;
        any = either(any, varies);
        now = either(now, varies);
    }
    Ok(any)
}

#[cycle(look)]
fn look_steps(
    alloc: Global,
    steps: &[TypedStep],
    scene: &Scene<'_>,
    control: bool,
    found: &mut Found,
) -> Result<bool, Memory>
    ensures { Sees found.old found.new (seen_all (map (step_fold (look_fold (known_of scene.now))) steps.now) (around_of scene.now) control) result }
{
    let mut any = false;
    for step in steps {
        let varies = look_step(alloc, step, scene, control, found)?;
        any = either(any, varies);
    }
    Ok(any)
}

#[cycle(look)]
fn look_step(
    alloc: Global,
    step: &TypedStep,
    scene: &Scene<'_>,
    control: bool,
    found: &mut Found,
) -> Result<bool, Memory>
    ensures { Sees found.old found.new (step_fold (look_fold (known_of scene.now)) step.now (around_of scene.now) control) result }
{
    match step {
        TypedStep::Index(index, _) => look(alloc, index, scene, control, found),
        TypedStep::Field(_) => Ok(false),
    }
}

/// Whether an index of a place varies.
#[cycle(look)]
pub fn look_place(
    alloc: Global,
    place: &TypedPlace,
    scene: &Scene<'_>,
    control: bool,
    found: &mut Found,
) -> Result<bool, Memory>
    ensures { Sees found.old found.new ((look_place (known_of scene.now) place.now).indices (around_of scene.now) control) result }
{
    look_steps(alloc, place.steps.as_slice(), scene, control, found)
}

/// Whether a call varies.
#[cycle(look)]
pub fn look_call(
    alloc: Global,
    typed: &TypedCall,
    scene: &Scene<'_>,
    control: bool,
    found: &mut Found,
) -> Result<bool, Memory>
    ensures { Sees found.old found.new (look_call (known_of scene.now) typed.now (around_of scene.now) control) result }
{
    let uniform = scene.uniform_of(typed.callee);
    let passed = look_arguments(
        alloc,
        typed.arguments.as_slice(),
        uniform,
        scene,
        control,
        found,
    )?;
    call(alloc, scene, typed, passed, control, found)
}

#[cycle(look)]
fn look_arguments(
    alloc: Global,
    arguments: &[Argument],
    uniform: &[bool],
    scene: &Scene<'_>,
    control: bool,
    found: &mut Found,
) -> Result<Passed, Memory>
    ensures { Passes found.old found.new uniform.now (arguments_of scene.now arguments.now) (around_of scene.now) control result }
{
    let mut passed = Passed::new(alloc);
    for (k, argument) in arguments.iter().enumerate() {
        let varies = look_argument(alloc, argument, scene, control, found)?;
        let level = either(names(output_of(argument, scene), scene), varies);
        note(
            is_barred(uniform, k, level),
            node_of(argument, scene),
            found,
        )?;
        passed.push(level, varies)?;
    }
    Ok(passed)
}

// Whether the value of an argument varies, or an index of its place.
#[cycle(look)]
fn look_argument(
    alloc: Global,
    argument: &Argument,
    scene: &Scene<'_>,
    control: bool,
    found: &mut Found,
) -> Result<bool, Memory>
    ensures { Sees found.old found.new ((argument_look scene.now argument.now).look (around_of scene.now) control) result }
{
    match argument {
        Argument::Input(operand, _) => look_operand(alloc, operand, scene, control, found),
        Argument::Output(place, _, _) => look_place(alloc, place, scene, control, found),
        Argument::Missing => Ok(false),
    }
}
