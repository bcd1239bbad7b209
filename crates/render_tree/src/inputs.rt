//! What the inputs of an entry take.

ghost use Rattle.std.specs.Prelude.{◌≡◌, ◌<◌, ◌≤◌, ◌^◌, ◌∷◌, ◌||◌, [], true, Some, IfOk, OnOk};
ghost use Rattle.std.specs.Option.{option_map};
ghost use Rattle.ctl_types.specs.Values.{one};
ghost use Rattle.ctl_types.specs.declared.scalar.Scalar.TheVariants.{Float};
ghost use Rattle.render_tree.specs.Means.{PixelFits, behind_inputs};
ghost use Rattle.render_tree.specs.PixelRun.{first_values, input_value, input_values, scalar_kind, taken_as, value_of};
ghost use Rattle.render_tree.specs.Stages.{input_is_simple, inputs_are_simple};

use crate::pixel::Pixel;
use ctl_base::Memory;
use ctl_types::{Parameter, Scalar, Shape, Value};
use eval_scalars::as_kind;
use fix_num::{FRACTION, Fix};
use sqlite_items::Items;
use std::alloc::Global;

// The raw of 1.0.
const ONE: i64 = 1 << FRACTION;

// The values that the inputs take from a pixel, in the order of the parameters.
pub(crate) fn input_values(
    alloc: Global,
    parameters: &[Parameter],
    depth: u8,
    pixel: Pixel,
) -> Result<Items<Value>, Memory>
    requires simple { inputs_are_simple parameters.now ≡ true }
    requires depth { (8 ≤ depth) × (depth ≤ 16) }
    requires fits { PixelFits depth pixel }
    ensures { IfOk result (λ inputs. input_values (first_values depth pixel) parameters.now ≡ Some inputs) }
{
    let mut inputs = Items::new(alloc);
    for parameter in parameters {
        put_input(alloc, parameter, depth, pixel, &mut inputs)?;
    }
    Ok(inputs)
}

// Puts the value that a parameter takes behind the inputs, if it is one of them.
fn put_input(
    alloc: Global,
    parameter: &Parameter,
    depth: u8,
    pixel: Pixel,
    inputs: &mut Items<Value>,
) -> Result<(), Memory>
    requires simple { (parameter.now.is_output || input_is_simple parameter.now) ≡ true }
    requires depth { (8 ≤ depth) × (depth ≤ 16) }
    requires fits { PixelFits depth pixel }
    ensures { OnOk result (Some inputs.new ≡ behind_inputs inputs.old (input_values (first_values depth pixel) (parameter.now ∷ []))) }
{
    if parameter.is_output {
        return Ok(());
    }
    inputs.push(input_value(alloc, parameter, depth, pixel)?)?;
    Ok(())
}

// The value that an input takes: a channel, its default, or 1.0.
fn input_value(
    alloc: Global,
    parameter: &Parameter,
    depth: u8,
    pixel: Pixel,
) -> Result<Value, Memory>
    requires simple { input_is_simple parameter.now ≡ true }
    requires depth { (8 ≤ depth) × (depth ≤ 16) }
    requires fits { PixelFits depth pixel }
    ensures { IfOk result (λ value. input_value (first_values depth pixel) parameter.now ≡ Some value) }
{
    match channel(parameter.name.as_slice(), depth, pixel) {
        Some(raw) => Ok(taken(&parameter.shape, raw)),
        None => match &parameter.default {
            Some(value) => Ok(value.copy(alloc)?),
            None => Ok(taken(&parameter.shape, Fix::from_raw(ONE))),
        },
    }
}

// The number of the code that a name stands for, if it is a channel's.
fn channel(name: &[u8], depth: u8, pixel: Pixel) -> Option<Fix>
    requires depth { (8 ≤ depth) × (depth ≤ 16) }
    requires fits { PixelFits depth pixel }
    ensures { option_map (λ raw. one (Float raw)) result ≡ value_of name.now (first_values depth pixel) }
{
    if name == b"bIn".as_slice() {
        Some(Fix::code_in(pixel.blue, depth))
    } else if name == b"gIn".as_slice() {
        Some(Fix::code_in(pixel.green, depth))
    } else if name == b"rIn".as_slice() {
        Some(Fix::code_in(pixel.red, depth))
    } else {
        None
    }
}

// A number as an input of a shape takes it.
fn taken(shape: &Shape, raw: Fix) -> Value
    ensures { result ≡ taken_as (scalar_kind shape.now) (one (Float raw)) }
{
    match shape {
        Shape::Scalar(kind) => Value::One(as_kind(*kind, &Scalar::Float(raw))),
        _ => Value::One(Scalar::Float(raw)),
    }
}
