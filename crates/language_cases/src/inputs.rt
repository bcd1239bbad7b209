//! Whether an entry takes inputs.

ghost use Rattle.std.specs.Prelude.{◌≡◌, ◌==◌, ◌∷◌, Some, true, false};
ghost use Rattle.ctl_types.specs.Shapes.{extents, open_count};
ghost use Rattle.ctl_types.specs.Scoping.{default_stands};
ghost use Rattle.ctl_laws.specs.Sound.{has_first, inputs_fit};

use ctl_types::{Extent, Parameter, Shape, Struct, Value};
use eval_values::{fits_shape, is_within_limit};

/// Whether an entry with these parameters takes these inputs.
#[cycle(takes)]
pub(crate) fn takes(structs: &[Struct], parameters: &[Parameter], inputs: &[Value]) -> bool
    ensures { result ≡ true → inputs_fit structs.now parameters.now inputs.now ≡ true }
{
    match parameters.split_first() {
        Some((parameter, rest)) => {
            if parameter.is_output {
                has_first(parameter) && takes(structs, rest, inputs)
            } else {
                takes_input(structs, parameter, rest, inputs)
            }
        }
        None => inputs.is_empty(),
    }
}

// The same, where the first parameter is an input.
#[cycle(takes)]
fn takes_input(
    structs: &[Struct],
    parameter: &Parameter,
    rest: &[Parameter],
    inputs: &[Value],
) -> bool
    requires { parameter.now.is_output ≡ false }
    ensures { result ≡ true → inputs_fit structs.now (parameter.now ∷ rest.now) inputs.now ≡ true }
{
    match inputs.split_first() {
        Some((input, others)) => {
            stands(structs, &parameter.shape, input) && takes(structs, rest, others)
        }
        None => false,
    }
}

// Whether an output has something to begin with.
fn has_first(parameter: &Parameter) -> bool
    ensures { result ≡ has_first parameter.now }
{
    parameter.default.is_some() || is_closed(&parameter.shape)
}

// Whether no extent of a shape is open.
fn is_closed(shape: &Shape) -> bool
    ensures { result ≡ (open_count (extents shape.now) == 0) }
{
    match shape {
        Shape::Scalar(_) => true,
        Shape::Struct(_) => true,
        Shape::Array(elements, extent) => match extent {
            Extent::Stated(_) => is_closed(elements.get()),
            Extent::Unstated => false,
        },
    }
}

// Whether a value is of a shape without open extents, and within the limits.
fn stands(structs: &[Struct], shape: &Shape, value: &Value) -> bool
    ensures { result ≡ true → default_stands structs.now shape.now (Some value.now) ≡ true }
{
    if is_closed(shape) {
        if is_within_limit(value) {
            return fits_shape(structs, value, shape, &[]);
        }
    }
    false
}
