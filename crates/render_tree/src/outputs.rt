//! What is written of the outputs of an entry.

ghost use Rattle.std.specs.Prelude.{◌≡◌, ◌+◌, if◌then◌else◌, ◌<◌, ◌≤◌, ◌^◌, ◌++◌, Some};
ghost use Rattle.std.specs.Option.{option_copied};
ghost use Rattle.ctl_base.specs.declared.kind.ScalarKind.TheVariants as kind;
ghost use Rattle.ctl_types.specs.Run.{given_or, word_as};
ghost use Rattle.ctl_types.specs.Values.{one};
ghost use Rattle.ctl_types.specs.declared.scalar.Scalar.TheVariants.{Float};
ghost use Rattle.ctl_types.specs.declared.value.Value.{out-Value};
ghost use Rattle.render_tree.specs.Means.{PixelFits};
ghost use Rattle.render_tree.specs.PixelRun.{code_for, first_values, if_named, named, passed_name, passed_on, pixel_of, value_of};

use crate::names::goes_on_as;
use crate::pixel::Pixel;
use ctl_base::ScalarKind;
use ctl_types::{Parameter, Value};
use eval_scalars::as_kind;
use fix_num::Fix;

// The codes that are written after the entry, from the pixel that it began with.
pub(crate) fn written(parameters: &[Parameter], outputs: &[Value], depth: u8, pixel: Pixel) -> Pixel
    requires depth { (8 ≤ depth) × (depth ≤ 16) }
    requires fits { PixelFits depth pixel }
    ensures { result ≡ pixel_of depth (first_values depth pixel ++ passed_on parameters.now outputs.now) }
{
    Pixel {
        red: code_for(
            parameters,
            outputs,
            b"rIn",
            depth,
            Fix::code_in(pixel.red, depth),
        ),
        green: code_for(
            parameters,
            outputs,
            b"gIn",
            depth,
            Fix::code_in(pixel.green, depth),
        ),
        blue: code_for(
            parameters,
            outputs,
            b"bIn",
            depth,
            Fix::code_in(pixel.blue, depth),
        ),
    }
}

// The code of a channel, which is what it was where no output goes on as it.
fn code_for(
    parameters: &[Parameter],
    outputs: &[Value],
    channel: &[u8],
    depth: u8,
    first: Fix,
) -> u16
    requires { (8 ≤ depth) × (depth ≤ 16) }
    ensures { result ≡ code_for depth (given_or (value_of channel.now (passed_on parameters.now outputs.now)) (Some (one (Float first)))) }
{
    match passed_value(parameters, outputs, channel) {
        Some(value) => float_of(value).code_out(depth),
        None => first.code_out(depth),
    }
}

// The value that goes on under a name.
fn passed_value<'a>(
    parameters: &[Parameter],
    outputs: &'a [Value],
    name: &[u8],
) -> Option<&'a Value>
    ensures { option_copied result ≡ value_of name.now (passed_on parameters.now outputs.now) }
{
    let mut found = None;
    let mut next = 0;
    let mut i = 0;
    'each: while i < parameters.len() && next < outputs.len() {
        let parameter = &parameters[i];
        found = later(found, parameter, &outputs[next], name);
        next = next_output(parameter, next);
        i += 1;
    }
    found
}

// The number of the next output.
fn next_output(parameter: &Parameter, number: usize) -> usize
    requires { number < 2 ^ 63 }
    ensures { result ≡ (if parameter.now.is_output then number + 1 else number) }
{
    if parameter.is_output {
        number + 1
    } else {
        number
    }
}

// The value of a parameter where it is an output that goes on under a name, else what was found before.
fn later<'a>(
    found: Option<&'a Value>,
    parameter: &Parameter,
    value: &'a Value,
    name: &[u8],
) -> Option<&'a Value>
    ensures { option_copied result ≡ (if parameter.now.is_output then given_or (if_named name.now (named (passed_name parameter.now.name) value.now)) (option_copied found.entry) else option_copied found.entry) }
{
    if parameter.is_output && goes_on_as(parameter.name.as_slice(), name) {
        Some(value)
    } else {
        found
    }
}

// A scalar as a float, and 0 of what is none.
fn float_of(value: &Value) -> Fix
    ensures { result ≡ word_as kind.Float (out-Value value.now) }
{
    match value {
        Value::One(scalar) => as_kind(ScalarKind::Float, scalar).word(),
        _ => Fix::from_raw(0),
    }
}
