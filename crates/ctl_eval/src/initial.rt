//! The value of an initialiser outside functions.

ghost use Rattle.std.specs.Prelude.{◌≡◌, [], true, IfOk};
ghost use Rattle.ctl_types.specs.Cost.{uncounted};
ghost use Rattle.ctl_types.specs.Run.{initial_value};
ghost use Rattle.ctl_types.specs.Scoping.{scene_of};
ghost use Rattle.ctl_types.specs.Typing.{initialiser_type};
ghost use Rattle.eval_values.specs.Uncounted.{Gives, pixel};
ghost use Rattle.eval_tree.specs.Scene.{run_initialiser};
ghost use Rattle.ctl_eval.specs.Entries.{Evaluates, GivesValue};
ghost use Rattle.ctl_eval.specs.Means.{scene_form};

use crate::ends::ValueEnd;
use ctl_base::Memory;
use ctl_laws::initialisers_are_sound;
use ctl_program::Definitions;
use ctl_types::{Initialiser, Value};
use eval_tree::{Scene, eval_initialiser};
use eval_values::{Stop, struct_zeros};
use std::alloc::Global;

/// The value of a well typed initialiser that sees the definitions so far and no variables: the value and the turns left,
/// or the trap, are those of the definition of running.
pub fn value_of(
    alloc: Global,
    definitions: &Definitions,
    initialiser: &Initialiser,
    turns: u32,
) -> Result<ValueEnd, Memory>
    requires { (initialiser_type (scene_of definitions.now) [] initialiser.now).well ≡ true }
    ensures { IfOk result (λ end. GivesValue end (initial_value (Unit {0}) uncounted definitions.now initialiser.now turns tt)) }
{
    definitions.keep_rules();
    initialisers_are_sound();
    match evaluate(alloc, definitions, initialiser, turns)? {
        Some(end) => Ok(end),
        None => unreachable!(),
    }
}

/// The value of any initialiser that sees the definitions so far and no variables, likewise. None where it has no meaning
/// by the definition of running, which one that is not well typed may lack.
pub fn evaluate(
    alloc: Global,
    definitions: &Definitions,
    initialiser: &Initialiser,
    turns: u32,
) -> Result<Option<ValueEnd>, Memory>
    ensures { IfOk result (λ end. Evaluates end (initial_value (Unit {0}) uncounted definitions.now initialiser.now turns tt)) }
{
    let mut env = Vec::new(alloc);
    let mut turns = turns;
    match initial(alloc, definitions, initialiser, &mut env, &mut turns) {
        Ok(value) => Ok(Some(ValueEnd::Value { value, turns })),
        Err(Stop::Trap(kind, node)) => Ok(Some(ValueEnd::Trap { kind, node })),
        Err(Stop::Wrong) => Ok(None),
        Err(Stop::Memory) => Err(Memory),
    }
}

// The value of an initialiser, or why there is none.
fn initial(
    alloc: Global,
    definitions: &Definitions,
    initialiser: &Initialiser,
    env: &mut Vec<Option<Value>>,
    turns: &mut u32,
) -> Result<Value, Stop>
    ensures { Gives (λ v. v) result env.new.items turns.new (run_initialiser (scene_form definitions.now) initialiser.now (pixel env.old.items turns.old)) }
{
    definitions.keep_rules();
    let zeros = struct_zeros(alloc, definitions.structs())?;
    let scene = Scene::new(
        definitions.structs(),
        zeros.as_slice(),
        definitions.constants(),
        definitions.functions(),
        &[],
    );
    eval_initialiser(alloc, initialiser, &scene, env, turns)
}
