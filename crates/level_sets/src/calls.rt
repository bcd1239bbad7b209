//! The call of an instance, or of a function of the library, after its arguments were looked at.

ghost use Rattle.std.specs.Prelude.{◌≡◌, ◌&&◌, ◌+◌, ◌++◌, ◌∷◌, [], OnOk, IfOk, false, get_or, map};
ghost use Rattle.ctl_types.specs.Shapes.{size_in};
ghost use Rattle.level_rules.specs.Rules.{both_found, output_found, fault_found, names, of_input, instance_of};
ghost use Rattle.level_rules.specs.Rows.{in_row};
ghost use Rattle.level_sets.specs.Marks.{tells_mark};
ghost use Rattle.level_sets.specs.Scene.{known_of, Sees};
ghost use Rattle.level_sets.specs.Calls.{argument_look, arguments_of, outputs_seen, inputs_seen, instance_seen, library_seen, callee_seen, callee_of, sizes_of, arguments_in};

use crate::scene::Scene;
use crate::tell::{any, either, tell_mark};
use ctl_base::{Memory, Node};
use ctl_types::{Argument, Callee, OpenSizes, Size, TypedCall};
use level_rules::{Found, Holder, Instance};
use sqlite_items::Items;
use std::alloc::Global;

/// What was seen of the arguments: whether each varies, and whether its value or an index of its place does.
#[derive(Drop)]
pub struct Passed {
    pub levels: Items<bool>,
    pub looks: Items<bool>,
}

impl Passed {
    pub fn new(alloc: Global) -> Passed
        ensures levels { result.levels ≡ [] }
        ensures looks { result.looks ≡ [] }
    {
        Passed {
            levels: Items::new(alloc),
            looks: Items::new(alloc),
        }
    }

    /// One more argument.
    pub fn push(&mut self, level: bool, look: bool) -> Result<(), Memory>
        ensures levels { OnOk result (self.new.levels ≡ self.old.levels ++ level ∷ []) }
        ensures looks { OnOk result (self.new.looks ≡ self.old.looks ++ look ∷ []) }
    {
        self.levels.push(level)?;
        self.looks.push(look)?;
        Ok(())
    }
}

/// The variable of the place of an output.
pub fn output_of(argument: &Argument, scene: &Scene<'_>) -> Option<u32>
    ensures { result ≡ (argument_look scene.now argument.now).output }
{
    let _rows = scene.rows();
    match argument {
        Argument::Input(_, _) => None,
        Argument::Output(place, _, _) => Some(place.variable),
        Argument::Missing => None,
    }
}

/// The node of an argument that is not missing.
pub fn node_of(argument: &Argument, scene: &Scene<'_>) -> Option<Node>
    ensures { result ≡ (argument_look scene.now argument.now).node }
{
    let _rows = scene.rows();
    match argument {
        Argument::Input(_, node) => Some(*node),
        Argument::Output(_, _, node) => Some(*node),
        Argument::Missing => None,
    }
}

/// Whether a variable that is named varies.
pub fn names(output: Option<u32>, scene: &Scene<'_>) -> bool
    ensures { result ≡ names output (in_row scene.now.row) }
{
    match output {
        Some(x) => scene.varies(Holder::Variable(x)),
        None => false,
    }
}

/// Notes an argument that varies and is not to.
pub fn note(varies: bool, node: Option<Node>, found: &mut Found) -> Result<(), Memory>
    ensures { OnOk result (found.new ≡ both_found found.old (fault_found varies node)) }
{
    match node {
        Some(node) => found.fault(varies, node),
        None => Ok(()),
    }
}

/// Whether an argument of this level is a fault: that of parameter k, which is marked uniform.
pub fn is_barred(uniform: &[bool], k: usize, level: bool) -> bool
    ensures { result ≡ (get_or uniform.now k false && level) }
{
    if k < uniform.len() {
        uniform[k] && level
    } else {
        false
    }
}

// An output is put into the set when it is copied back.
fn put_output(varies: bool, output: Option<u32>, found: &mut Found) -> Result<(), Memory>
    ensures { OnOk result (found.new ≡ both_found found.old (output_found varies output)) }
{
    match output {
        Some(x) => found.put(varies, Holder::Variable(x)),
        None => Ok(()),
    }
}

fn size_in(size: Size, opens: &[u32]) -> u32
    ensures { result ≡ size_in opens.now size }
{
    match size {
        Size::Stated(n) => n,
        Size::Open(k) => {
            let number = k as usize;
            if number < opens.len() {
                opens[number]
            } else {
                0
            }
        }
    }
}

// The sizes that are called with, in an instance with these open sizes.
fn sizes_in(alloc: Global, sizes: &[Size], opens: &[u32]) -> Result<OpenSizes, Memory>
    ensures { IfOk result (λ all. all ≡ map (size_in opens.now) sizes.now) }
{
    let mut all = OpenSizes::new(alloc);
    for size in sizes {
        all.push(size_in(*size, opens))?;
    }
    Ok(all)
}

fn look_at(looks: &[bool], k: usize) -> bool
    ensures { result ≡ get_or looks.now k false }
{
    if k < looks.len() { looks[k] } else { false }
}

// The outputs of an instance are copied back.
fn put_outputs(
    scene: &Scene<'_>,
    instance: &Instance,
    arguments: &[Argument],
    looks: &[bool],
    control: bool,
    found: &mut Found,
) -> Result<(), Memory>
    ensures { OnOk result (found.new ≡ both_found found.old (outputs_seen (λ k. tells_mark scene.now.rows instance.now (k + 1)) 0 (arguments_of scene.now arguments.now) looks.now control)) }
{
    for (k, argument) in arguments.iter().enumerate() {
        let varies = either(tell_mark(scene.rows(), instance, k + 1), look_at(looks, k));
        put_output(either(control, varies), output_of(argument, scene), found)?;
    }
    Ok(())
}

// The outputs of a function of the library are copied back, where this is true of its inputs.
fn put_library_outputs(
    scene: &Scene<'_>,
    inputs: bool,
    arguments: &[Argument],
    looks: &[bool],
    control: bool,
    found: &mut Found,
) -> Result<(), Memory>
    ensures { OnOk result (found.new ≡ both_found found.old (outputs_seen (λ k. inputs) 0 (arguments_of scene.now arguments.now) looks.now control)) }
{
    for (k, argument) in arguments.iter().enumerate() {
        let varies = either(inputs, look_at(looks, k));
        put_output(either(control, varies), output_of(argument, scene), found)?;
    }
    Ok(())
}

fn input_varies(output: Option<u32>, look: bool) -> bool
    ensures { result ≡ of_input output look }
{
    match output {
        Some(_) => false,
        None => look,
    }
}

// Whether one of these arguments varies that is no output.
fn any_input(scene: &Scene<'_>, arguments: &[Argument], looks: &[bool]) -> bool
    ensures { result ≡ inputs_seen 0 (arguments_of scene.now arguments.now) looks.now }
{
    for (k, argument) in arguments.iter().enumerate() {
        if input_varies(output_of(argument, scene), look_at(looks, k)) {
            return true;
        }
    }
    false
}

fn call_instance(
    scene: &Scene<'_>,
    instance: Instance,
    arguments: &[Argument],
    looks: &[bool],
    control: bool,
    found: &mut Found,
) -> Result<bool, Memory>
    ensures { Sees found.old found.new (instance_seen (known_of scene.now) instance (arguments_of scene.now arguments.now) looks.now control) result }
{
    let varies = either(
        any(instance.levels.as_slice()),
        tell_mark(scene.rows(), &instance, 0),
    );
    put_outputs(scene, &instance, arguments, looks, control, found)?;
    found.call(instance)?;
    Ok(varies)
}

fn call_library(
    scene: &Scene<'_>,
    passed: &Passed,
    arguments: &[Argument],
    control: bool,
    found: &mut Found,
) -> Result<bool, Memory>
    ensures { Sees found.old found.new (library_seen (arguments_of scene.now arguments.now) passed.now control) result }
{
    let inputs = any_input(scene, arguments, passed.looks.as_slice());
    put_library_outputs(
        scene,
        inputs,
        arguments,
        passed.looks.as_slice(),
        control,
        found,
    )?;
    Ok(any(passed.levels.as_slice()))
}

// The instance that is called has the levels of the arguments, and the control of the place.
fn call_program(
    alloc: Global,
    scene: &Scene<'_>,
    function: u32,
    sizes: &[Size],
    arguments: &[Argument],
    passed: Passed,
    control: bool,
    found: &mut Found,
) -> Result<bool, Memory>
    ensures { Sees found.old found.new (instance_seen (known_of scene.now) (instance_of function (map (size_in scene.now.opens) sizes.now) passed.levels control) (arguments_of scene.now arguments.now) passed.looks control) result }
{
    let sizes = sizes_in(alloc, sizes, scene.opens())?;
    let looks = passed.looks;
    let instance = Instance {
        function,
        sizes,
        levels: passed.levels,
        control,
    };
    call_instance(scene, instance, arguments, looks.as_slice(), control, found)
}

/// The call of what is called, after its arguments were looked at.
pub fn call(
    alloc: Global,
    scene: &Scene<'_>,
    typed: &TypedCall,
    passed: Passed,
    control: bool,
    found: &mut Found,
) -> Result<bool, Memory>
    ensures { Sees found.old found.new (callee_seen scene.now (callee_of typed.now) (sizes_of typed.now) (arguments_of scene.now (arguments_in typed.now)) passed control) result }
{
    let arguments = typed.arguments.as_slice();
    match typed.callee {
        Callee::Program(function) => {
            let sizes = typed.sizes.as_slice();
            call_program(
                alloc, scene, function, sizes, arguments, passed, control, found,
            )
        }
        Callee::Library(_) => call_library(scene, &passed, arguments, control, found),
    }
}
