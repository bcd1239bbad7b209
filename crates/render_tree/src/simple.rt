//! Which parameters of an entry are of the simple form.

ghost use Rattle.std.specs.Prelude.{◌≡◌, false, slice_get};
ghost use Rattle.render_tree.specs.Stages.{ends_as_scalar, has_output, input_is_simple, inputs_are_simple, is_fed, is_scalar, is_simple, is_simple_entry, is_uniform, output_is_simple, outputs_are_simple, scalar_so_far};

use crate::names::{goes_on_as, is_alpha, is_channel, scalar_kind};
use ctl_tree::Level;
use ctl_types::{Function, Parameter};

// Whether a function that is there has parameters of the simple form.
pub(crate) fn is_simple_entry(functions: &[Function], number: u32) -> bool
    ensures { result ≡ is_simple_entry (slice_get functions.now number) }
{
    match functions.get(number as usize) {
        Some(entry) => is_simple(entry.parameters.as_slice()),
        None => false,
    }
}

fn is_simple(parameters: &[Parameter]) -> bool
    ensures { result ≡ is_simple parameters.now }
{
    inputs_are_simple(parameters) && outputs_are_simple(parameters)
}

fn inputs_are_simple(parameters: &[Parameter]) -> bool
    ensures { result ≡ inputs_are_simple parameters.now }
{
    for parameter in parameters {
        if !parameter.is_output && !input_is_simple(parameter) {
            return false;
        }
    }
    true
}

fn input_is_simple(parameter: &Parameter) -> bool
    ensures { result ≡ input_is_simple parameter.now }
{
    let name = parameter.name.as_slice();
    if is_channel(name) || is_alpha(name) {
        is_scalar(parameter) && !(is_fed(parameter) && is_uniform(parameter.level))
    } else {
        parameter.default.is_some()
    }
}

// Whether an input takes a channel or 1.0.
fn is_fed(parameter: &Parameter) -> bool
    ensures { result ≡ is_fed parameter.now }
{
    let name = parameter.name.as_slice();
    is_channel(name) || (is_alpha(name) && parameter.default.is_none())
}

fn is_uniform(level: Option<Level>) -> bool
    ensures { result ≡ is_uniform level }
{
    match level {
        Some(Level::Uniform) => true,
        Some(Level::Varying) => false,
        None => false,
    }
}

fn is_scalar(parameter: &Parameter) -> bool
    ensures { result ≡ is_scalar parameter.now }
{
    scalar_kind(&parameter.shape).is_some()
}

fn outputs_are_simple(parameters: &[Parameter]) -> bool
    ensures { result ≡ outputs_are_simple parameters.now }
{
    output_is_simple(b"rOut", b"rIn", parameters)
        && output_is_simple(b"gOut", b"gIn", parameters)
        && output_is_simple(b"bOut", b"bIn", parameters)
}

// Whether an output is there, and the last one that goes on as the channel is a scalar.
fn output_is_simple(output: &[u8], channel: &[u8], parameters: &[Parameter]) -> bool
    ensures { result ≡ output_is_simple output.now channel.now parameters.now }
{
    has_output(output, parameters) && ends_as_scalar(channel, parameters)
}

fn has_output(name: &[u8], parameters: &[Parameter]) -> bool
    ensures { result ≡ has_output name.now parameters.now }
{
    for parameter in parameters {
        if parameter.is_output && parameter.name.as_slice() == name {
            return true;
        }
    }
    false
}

// Whether the last output that goes on under a name is a scalar, false where none does.
fn ends_as_scalar(name: &[u8], parameters: &[Parameter]) -> bool
    ensures { result ≡ ends_as_scalar name.now false parameters.now }
{
    let mut so_far = false;
    for parameter in parameters {
        so_far = scalar_so_far(name, so_far, parameter);
    }
    so_far
}

// The same after one parameter more.
fn scalar_so_far(name: &[u8], before: bool, parameter: &Parameter) -> bool
    ensures { result ≡ scalar_so_far name.now before parameter.now }
{
    if parameter.is_output && goes_on_as(parameter.name.as_slice(), name) {
        is_scalar(parameter)
    } else {
        before
    }
}
