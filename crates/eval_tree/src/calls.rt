//! What is done before and after the body of a function that is called.

ghost use Rattle.std.specs.Prelude.{◌≡◌, ◌++◌, ◌+◌, ◌<◌, ℕ, drop, length, map, replicate, slice_get, true, None, Some, OnOk};
ghost use Rattle.ctl_types.specs.declared.value.Value.{Value as ValueForm};
ghost use Rattle.ctl_types.specs.declared.expression.Callee.TheVariants.{Library};
ghost use Rattle.ctl_types.specs.Run.{whole_result};
ghost use Rattle.ctl_types.specs.Values.{Env, fits};
ghost use Rattle.eval_values.specs.Uncounted.{Gives, Comes, pixel, go_on, held, found, convert, pass_value, callee_of, end_of};
ghost use Rattle.eval_tree.specs.Scene.{setting};
ghost use Rattle.eval_tree.specs.Calls.{seen, passed, target_of, put_into, put_given, missing_at, brought_into, defaults_of, default_of, with_defaults, given_at, comes_of, begun, Begins};

use crate::ends::End;
use crate::scene::Scene;
use crate::sending::Sent;
use crate::single::converted;
use ctl_base::{Memory, Node, TrapKind};
use ctl_stdlib::LibraryId;
use ctl_types::{Argument, Conversion, Function, Parameter, Shape, Struct, Value};
use eval_library::{LibraryEnd, call_library};
use eval_values::{Path, Stop, converted_back, fits, fits_shape, found, put, takes};
use sqlite_items::{Items, at};
use std::alloc::Global;

/// The argument of an output: the value at its place is copied and converted.
pub fn output_at(
    alloc: Global,
    env: &[Option<Value>],
    variable: u32,
    path: Path,
    conversion: Conversion,
) -> Result<Sent, Stop>
    ensures { (turns : ℕ) → Gives passed result env.now turns (held (found variable path env.now) (λ (v : ValueForm) p. go_on (convert conversion v p) (pass_value path)) (pixel env.now turns)) }
{
    match found(env, variable, path.as_slice()) {
        Some(value) => {
            let value = converted(conversion, value.copy(alloc)?)?;
            Ok(Sent {
                value: Some(value),
                path,
            })
        }
        None => Err(Stop::Wrong),
    }
}

/// A default stands for each argument that is missing.
pub fn fill_defaults(
    alloc: Global,
    number: u32,
    scene: &Scene<'_>,
    frame: &mut Vec<Option<Value>>,
) -> Result<(), Memory>
    ensures { OnOk result (frame.new.items ≡ with_defaults (defaults_of (slice_get (setting scene.now).functions number)) frame.old.items) }
{
    match at(scene.functions(), number as usize) {
        Some(function) => fill(alloc, function.parameters.as_slice(), frame),
        None => Ok(()),
    }
}

fn fill(
    alloc: Global,
    parameters: &[Parameter],
    frame: &mut Vec<Option<Value>>,
) -> Result<(), Memory>
    ensures { OnOk result (frame.new.items ≡ with_defaults (map default_of parameters.now) frame.old.items) }
{
    let mut i = 0;
    'each: while i < parameters.len() {
        if i >= frame.len() {
            return Ok(());
        }
        fill_at(alloc, &parameters[i].default, i, frame)?;
        i += 1;
    }
    Ok(())
}

#[tactic(auto, using(crate::proofs::Frames::given_none, crate::proofs::Frames::given_there, crate::proofs::Frames::given_set))]
fn fill_at(
    alloc: Global,
    default: &Option<Value>,
    i: usize,
    frame: &mut Vec<Option<Value>>,
) -> Result<(), Memory>
    ensures { OnOk result (frame.new.items ≡ given_at default.now i frame.old.items) }
{
    if let Some(value) = default {
        if is_missing(frame, i) {
            let copy = value.copy(alloc)?;
            frame[i] = Some(copy);
        }
    }
    Ok(())
}

#[tactic(auto, using(crate::proofs::Frames::missing_yes, crate::proofs::Frames::missing_no, crate::proofs::Frames::missing_out))]
fn is_missing(frame: &[Option<Value>], i: usize) -> bool
    ensures missing { result ≡ missing_at i frame.now }
    ensures within { result ≡ true → i < length frame.now }
{
    if i >= frame.len() {
        return false;
    }
    match &frame[i] {
        Some(_) => false,
        None => true,
    }
}

/// The parameters begin as the arguments, where the function takes them, and no other variable is declared.
pub fn begin(
    function: &Function,
    opens: &[u32],
    structs: &[Struct],
    frame: &mut Vec<Option<Value>>,
) -> Result<(), Stop>
    ensures { Begins result frame.new.items (begun structs.now function.now opens.now frame.old.items) }
{
    if !takes(structs, function.parameters.as_slice(), opens, frame) {
        return Err(Stop::Wrong);
    }
    add_absent(function.variables, frame)?;
    Ok(())
}

fn add_absent(count: u32, frame: &mut Vec<Option<Value>>) -> Result<(), Memory>
    ensures { OnOk result (frame.new.items ≡ frame.old.items ++ replicate count None) }
{
    let mut left = count;
    'each: while left > 0 {
        frame.push(None)?;
        left -= 1;
    }
    Ok(())
}

/// The value of a call, by how the body of the function ended.
pub fn ended(
    alloc: Global,
    structs: &[Struct],
    shape: &Option<Shape>,
    end: End,
) -> Result<Value, Stop>
    ensures { (frame : Env) (turns : ℕ) → Comes result frame turns (end_of structs.now shape.now (seen end) (pixel frame turns)) }
{
    match end {
        End::Left(value) => {
            if fits_result(structs, &value, shape) {
                Ok(value)
            } else {
                Err(Stop::Wrong)
            }
        }
        End::Normal => match shape {
            Some(_) => Err(Stop::Wrong),
            None => Ok(Value::Fields(Items::new(alloc))),
        },
    }
}

fn fits_result(structs: &[Struct], value: &Value, shape: &Option<Shape>) -> bool
    ensures { result ≡ fits structs.now value.now (whole_result shape.now).sizes (whole_result shape.now).base }
{
    match shape {
        Some(shape) => fits_shape(structs, value, shape, &[]),
        None => fits(structs, value, &[], None),
    }
}

/// Calls a function of the library.
pub fn called_library(
    alloc: Global,
    id: LibraryId,
    node: Node,
    opens: &[u32],
    scene: &Scene<'_>,
    frame: &mut Vec<Option<Value>>,
) -> Result<Value, Stop>
    ensures { (turns : ℕ) → Comes result frame.new.items turns (comes_of (callee_of (setting scene.now) (Library id) node) opens.now frame.old.items turns) }
{
    match call_library(alloc, id, scene.structs(), opens, frame)? {
        LibraryEnd::Unfit => Err(Stop::Wrong),
        LibraryEnd::Refused => Err(Stop::Trap(TrapKind::Assert, node)),
        LibraryEnd::Given(value) => Ok(value),
    }
}

/// Puts the outputs back in the order of the parameters.
pub fn bring_back(
    alloc: Global,
    arguments: &[Argument],
    paths: &[Path],
    frame: &mut Vec<Option<Value>>,
    env: &mut Vec<Option<Value>>,
) -> Result<(), Memory>
    ensures { OnOk result (env.new.items ≡ brought_into (map target_of arguments.now) paths.now frame.old.items env.old.items) }
{
    let mut i = 0;
    'each: while i < arguments.len() {
        if i >= paths.len() {
            return Ok(());
        }
        if i >= frame.len() {
            return Ok(());
        }
        let value = take_at(frame, i);
        put_back(alloc, &arguments[i], paths[i].as_slice(), value, env)?;
        i += 1;
    }
    Ok(())
}

fn take_at(frame: &mut Vec<Option<Value>>, i: usize) -> Option<Value>
    requires { i < length frame.old.items }
    ensures value { slice_get frame.old.items i ≡ Some result }
    ensures behind { drop (i + 1) frame.new.items ≡ drop (i + 1) frame.old.items }
{
    frame[i].take()
}

// Puts an output back, converted to its place.
fn put_back(
    alloc: Global,
    argument: &Argument,
    path: &[usize],
    value: Option<Value>,
    env: &mut Vec<Option<Value>>,
) -> Result<(), Memory>
    ensures { OnOk result (env.new.items ≡ put_given (target_of argument.now) path.now value env.old.items) }
{
    match value {
        Some(value) => put_value(alloc, argument, path, value, env),
        None => Ok(()),
    }
}

fn put_value(
    alloc: Global,
    argument: &Argument,
    path: &[usize],
    value: Value,
    env: &mut Vec<Option<Value>>,
) -> Result<(), Memory>
    ensures { OnOk result (env.new.items ≡ put_into (target_of argument.now) path.now value env.old.items) }
{
    match argument {
        Argument::Input(_, _) => Ok(()),
        Argument::Output(place, conversion, _) => {
            let back = converted_back(*conversion, value);
            put(alloc, env, place.variable, path, back)
        }
        Argument::Missing => Ok(()),
    }
}
