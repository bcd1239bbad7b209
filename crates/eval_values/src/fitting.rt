//! Whether a function takes what it is called with.

ghost use Rattle.std.specs.Prelude.{◌≡◌, ◌==◌, ◌&&◌, drop, length, map, nat_le, Some};
ghost use Rattle.ctl_base.specs.declared.limits.TheConstants.{ARRAY_SIZE, SCALARS};
ghost use Rattle.ctl_types.specs.declared.program.Parameter.{Parameter as ParameterForm};
ghost use Rattle.ctl_types.specs.Shapes.{extents, base_of, open_count, open_sizes_of, locals};
ghost use Rattle.ctl_types.specs.Values.{fits, flat_all, scalars, sizes_fit, arguments_fit, takes};
ghost use Rattle.eval_values.specs.Sizes.{sizes_of, less, given_fits};

use crate::shapes::{fits_shape, left};
use ctl_base::limits::{ARRAY_SIZE, SCALARS};
use ctl_types::{Extent, Parameter, Shape, Struct, Value};

/// Whether a function with these parameters takes these open sizes and arguments.
pub fn takes(
    structs: &[Struct],
    parameters: &[Parameter],
    opens: &[u32],
    frame: &[Option<Value>],
) -> bool
    ensures { result ≡ takes structs.now (map (λ (q : ParameterForm). q.shape) parameters.now) opens.now frame.now }
{
    are_open(parameters, opens.len())
        && sizes_fit(opens)
        && arguments_fit(structs, parameters, opens, frame)
}

// Whether so many extents of all parameters are open.
fn are_open(parameters: &[Parameter], count: usize) -> bool
    ensures { result ≡ (count == open_sizes_of (map (λ (q : ParameterForm). q.shape) parameters.now)) }
{
    let mut left = count;
    for parameter in parameters {
        match less_open(&parameter.shape, left) {
            Some(fewer) => left = fewer,
            None => return false,
        }
    }
    left == 0
}

// So many sizes less the open ones of a shape, where there are as many.
fn less_open(shape: &Shape, count: usize) -> Option<usize>
    ensures { result ≡ less count (open_count (extents shape.now)) }
{
    match shape {
        Shape::Scalar(_) => Some(count),
        Shape::Struct(_) => Some(count),
        Shape::Array(elements, extent) => match extent {
            Extent::Stated(_) => less_open(elements.get(), count),
            Extent::Unstated => {
                if count == 0 {
                    None
                } else {
                    less_open(elements.get(), count - 1)
                }
            }
        },
    }
}

/// Whether each open size is from 1 to the limit of arrays.
pub fn sizes_fit(opens: &[u32]) -> bool
    ensures { result ≡ sizes_fit opens.now }
{
    for size in opens {
        if !size_fits(*size) {
            return false;
        }
    }
    true
}

fn size_fits(size: u32) -> bool
    ensures { result ≡ (nat_le 1 size && nat_le size ARRAY_SIZE) }
{
    size >= 1 && size <= ARRAY_SIZE
}

// Whether there is an argument for each parameter, and it is of its shape.
fn arguments_fit(
    structs: &[Struct],
    parameters: &[Parameter],
    opens: &[u32],
    frame: &[Option<Value>],
) -> bool
    ensures { result ≡ arguments_fit structs.now opens.now (locals 0 (map (λ (q : ParameterForm). q.shape) parameters.now)) frame.now }
{
    let mut opens = opens;
    let mut i = 0;
    'each: while i < parameters.len() {
        if i >= frame.len() {
            return false;
        }
        let shape = &parameters[i].shape;
        if !argument_fits(structs, &frame[i], shape, opens) {
            return false;
        }
        opens = behind(shape, opens);
        i += 1;
    }
    i == frame.len()
}

fn argument_fits(structs: &[Struct], value: &Option<Value>, shape: &Shape, opens: &[u32]) -> bool
    ensures { result ≡ given_fits structs.now opens.now (extents shape.now) (base_of shape.now) value.now }
{
    match value {
        Some(value) => fits_shape(structs, value, shape, opens) && is_within_limit(value),
        None => false,
    }
}

// The open sizes that are left for the parameters behind one.
fn behind<'a>(shape: &Shape, opens: &'a [u32]) -> &'a [u32]
    ensures { result.now ≡ drop (open_count (extents shape.now)) opens.now }
{
    match shape {
        Shape::Scalar(_) => opens,
        Shape::Struct(_) => opens,
        Shape::Array(elements, extent) => behind(elements.get(), left(*extent, opens)),
    }
}

/// Whether a value is within the limit of scalars.
pub fn is_within_limit(value: &Value) -> bool
    ensures { result ≡ nat_le (scalars value.now) SCALARS }
{
    match less_scalars(value, SCALARS) {
        Some(_) => true,
        None => false,
    }
}

// So many less the scalars of a value, where there are as many.
#[cycle(less)]
fn less_scalars(value: &Value, count: u32) -> Option<u32>
    ensures { result ≡ less count (scalars value.now) }
{
    match value {
        Value::One(_) => { if count == 0 { None } else { Some(count - 1) } }
        Value::List(parts) => less_all(parts.as_slice(), count),
        Value::Fields(parts) => less_all(parts.as_slice(), count),
    }
}

#[cycle(less)]
fn less_all(parts: &[Value], count: u32) -> Option<u32>
    ensures { result ≡ less count (length (flat_all parts.now)) }
{
    let mut left = count;
    for part in parts {
        match less_scalars(part, left) {
            Some(fewer) => left = fewer,
            None => return None,
        }
    }
    Some(left)
}
