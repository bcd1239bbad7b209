//! The run of an entry.

ghost use Rattle.std.specs.Prelude.{◌≡◌, true, IfOk};
ghost use Rattle.ctl_types.specs.Cost.{plain_run};
ghost use Rattle.ctl_eval.specs.Entries.{EntryTakes, Ends};
ghost use Rattle.ctl_types.specs.Values.{open_sizes, sizes_fit};
ghost use Rattle.ctl_eval.specs.Means.{EntryGives, scene_form, from_frame, shapes_of};

use crate::beginning::{first_frame, open_sizes, outputs};
use crate::ends::{Outputs, PixelEnd};
use ctl_base::Memory;
use ctl_laws::entries_are_sound;
use ctl_program::{Definitions, Program};
use ctl_types::{Parameter, Value};
use eval_tree::{Scene, run_function};
use eval_values::{Stop, struct_zeros};
use std::alloc::Global;

/// Runs a function of a program, as an entry, from the values of its inputs: the outputs and the turns left, or the trap,
/// are those of the definition of running.
pub fn run(
    alloc: Global,
    program: &Program,
    entry: u32,
    inputs: &[Value],
    turns: u32,
) -> Result<PixelEnd, Memory>
    requires { EntryTakes program.now.definitions entry inputs.now }
    ensures { IfOk result (λ end. Ends end (plain_run program.now.definitions entry inputs.now turns)) }
{
    program.keeps_rules();
    entries_are_sound();
    match run_entry(alloc, program.definitions(), entry, inputs, turns) {
        Ok(Outputs { values, turns }) => Ok(PixelEnd::Values {
            outputs: values,
            turns,
        }),
        Err(Stop::Trap(kind, node)) => Ok(PixelEnd::Trap { kind, node }),
        Err(Stop::Wrong) => unreachable!(),
        Err(Stop::Memory) => Err(Memory),
    }
}

// The outputs of an entry and the turns that are left, or why there are none.
fn run_entry(
    alloc: Global,
    definitions: &Definitions,
    entry: u32,
    inputs: &[Value],
    turns: u32,
) -> Result<Outputs, Stop>
    requires { EntryTakes definitions.now entry inputs.now }
    ensures { EntryGives result (plain_run definitions.now entry inputs.now turns) }
{
    definitions.keep_rules();
    let zeros = struct_zeros(alloc, definitions.structs())?;
    let scene = Scene::new(
        definitions.structs(),
        zeros.as_slice(),
        definitions.constants(),
        definitions.functions(),
        &[],
    );
    run_in(alloc, definitions, &scene, entry, inputs, turns)
}

// The same, where this is known.
fn run_in(
    alloc: Global,
    definitions: &Definitions,
    scene: &Scene<'_>,
    entry: u32,
    inputs: &[Value],
    turns: u32,
) -> Result<Outputs, Stop>
    requires takes { EntryTakes definitions.now entry inputs.now }
    requires known { scene.now ≡ scene_form definitions.now }
    ensures { EntryGives result (plain_run definitions.now entry inputs.now turns) }
{
    let parameters = definitions.functions()[entry as usize]
        .parameters
        .as_slice();
    definitions.keep_rules();
    entries_are_sound();
    let frame = first_frame(alloc, scene, parameters, inputs)?;
    run_frame(alloc, definitions, scene, entry, parameters, frame, turns)
}

// The same, from the parameters at their beginning.
fn run_frame(
    alloc: Global,
    definitions: &Definitions,
    scene: &Scene<'_>,
    entry: u32,
    parameters: &[Parameter],
    frame: Vec<Option<Value>>,
    turns: u32,
) -> Result<Outputs, Stop>
    requires known { scene.now ≡ scene_form definitions.now }
    requires sized { sizes_fit (open_sizes (shapes_of parameters.now) frame.items) ≡ true }
    ensures { EntryGives result (from_frame definitions.now entry parameters.now frame.items turns) }
{
    let mut frame = frame;
    let mut turns = turns;
    let opens = open_sizes(alloc, parameters, &frame)?;
    run_function(
        alloc,
        entry,
        opens.as_slice(),
        scene,
        &mut frame,
        &mut turns,
    )?;
    let values = outputs(alloc, parameters, frame)?;
    Ok(Outputs { values, turns })
}
