//! The parameters of an entry at its beginning, and its outputs at its end.

ghost use Rattle.std.specs.Prelude.{◌≡◌, ◌<◌, ◌+◌, [], ◌∷◌, drop, get_or, length, true, IfOk};
ghost use Rattle.ctl_types.specs.Run.{first_frame, first_output, outputs_of};
ghost use Rattle.ctl_types.specs.Values.{open_sizes, sizes_fit};
ghost use Rattle.ctl_eval.specs.Means.{Found, behind, shapes_of};

use ctl_base::Memory;
use ctl_types::{OpenSizes, Parameter, Value};
use eval_tree::Scene;
use eval_values::{Stop, zero_of_shape};
use sqlite_items::Items;
use std::alloc::Global;

/// The parameters of an entry at its beginning, from the values of the inputs: its outputs begin at their defaults, or at
/// zero.
pub fn first_frame(
    alloc: Global,
    scene: &Scene<'_>,
    parameters: &[Parameter],
    inputs: &[Value],
) -> Result<Vec<Option<Value>>, Stop>
    ensures { Found (λ frame. frame.items) result (first_frame scene.now.structs parameters.now inputs.now) }
{
    let mut frame = Vec::new(alloc);
    let mut next = 0;
    let mut i = 0;
    'each: while i < parameters.len() {
        let parameter = &parameters[i];
        if parameter.is_output {
            frame.push(Some(first_output(alloc, scene, parameter)?))?;
        } else {
            if next >= inputs.len() {
                return Err(Stop::Wrong);
            }
            frame.push(Some(inputs[next].copy(alloc)?))?;
            next += 1;
        }
        i += 1;
    }
    if next < inputs.len() {
        return Err(Stop::Wrong);
    }
    Ok(frame)
}

// An output begins at its default, or at zero.
fn first_output(alloc: Global, scene: &Scene<'_>, parameter: &Parameter) -> Result<Value, Memory>
    ensures { IfOk result (λ v. v ≡ first_output scene.now.structs parameter.now) }
{
    match &parameter.default {
        Some(value) => value.copy(alloc),
        None => zero_of_shape(alloc, scene.zeros(), &parameter.shape),
    }
}

/// The open sizes of parameters, by their values.
pub fn open_sizes(
    alloc: Global,
    parameters: &[Parameter],
    frame: &[Option<Value>],
) -> Result<OpenSizes, Memory>
    requires { sizes_fit (open_sizes (shapes_of parameters.now) frame.now) ≡ true }
    ensures { IfOk result (λ sizes. sizes ≡ open_sizes (shapes_of parameters.now) frame.now) }
{
    let mut sizes = OpenSizes::new(alloc);
    let mut i = 0;
    'each: while i < parameters.len() && i < frame.len() {
        parameters[i]
            .shape
            .append_open_sizes(frame[i].as_ref(), &mut sizes)?;
        i += 1;
    }
    Ok(sizes)
}

/// The values of the outputs, in the order of the parameters.
pub fn outputs(
    alloc: Global,
    parameters: &[Parameter],
    frame: Vec<Option<Value>>,
) -> Result<Items<Value>, Stop>
    ensures { Found (λ values. values) result (outputs_of parameters.now frame.items) }
{
    let mut frame = frame;
    let mut values = Items::new(alloc);
    let mut i = 0;
    'each: while i < parameters.len() {
        if i >= frame.len() {
            return Err(Stop::Wrong);
        }
        let value = take_at(&mut frame, i);
        put_output(&parameters[i], value, &mut values)?;
        i += 1;
    }
    Ok(values)
}

// Puts the value of a parameter behind the outputs, if it is one of them.
fn put_output(
    parameter: &Parameter,
    value: Option<Value>,
    outputs: &mut Items<Value>,
) -> Result<(), Stop>
    ensures { Found (λ _. outputs.new) result (behind outputs.old (outputs_of (parameter.now ∷ []) (value ∷ []))) }
{
    if !parameter.is_output {
        return Ok(());
    }
    match value {
        Some(value) => {
            outputs.push(value)?;
            Ok(())
        }
        None => Err(Stop::Wrong),
    }
}

fn take_at(frame: &mut Vec<Option<Value>>, i: usize) -> Option<Value>
    requires { i < length frame.old.items }
    ensures value { result ≡ get_or frame.old.items i result }
    ensures behind { drop (i + 1) frame.new.items ≡ drop (i + 1) frame.old.items }
{
    frame[i].take()
}
