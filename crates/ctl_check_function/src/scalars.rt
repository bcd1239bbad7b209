//! How many scalars a struct has, where more than the limit count as one more.

ghost use Rattle.std.specs.Prelude.{◌≡◌, ◌+◌, ◌*◌, ◌≤◌, [], min, sum_by, get_or};
ghost use Rattle.ctl_types.specs.declared.program.Field.{Field as FieldForm};
ghost use Rattle.ctl_types.specs.Shapes.{base_of, size_in, whole_of, scalars_of};
ghost use Rattle.ctl_base.specs.declared.limits.TheConstants.{SCALARS};
ghost use Rattle.ctl_check_rules.specs.Shapes.{stated_size};

use ctl_base::limits::SCALARS;
use ctl_types::{Extent, Field, Shape};

/// The scalars of fields, where each struct has so many.
pub(crate) fn scalars_of_fields(counts: &[u32], fields: &[Field]) -> u32
    ensures { result ≡ min (sum_by (λ (f : FieldForm). scalars_of counts.now (whole_of f.shape).sizes (base_of f.shape)) fields.now) (SCALARS + 1) }
{
    let mut scalars = 0;
    for field in fields {
        scalars = (scalars + scalars_of_shape(counts, &field.shape)).min(SCALARS + 1);
    }
    scalars
}

// The scalars of a shape.
fn scalars_of_shape(counts: &[u32], shape: &Shape) -> u32
    ensures { result ≡ min (scalars_of counts.now (whole_of shape.now).sizes (base_of shape.now)) (SCALARS + 1) }
{
    match shape {
        Shape::Scalar(_) => 1,
        Shape::Struct(number) => count_of(counts, *number).min(SCALARS + 1),
        Shape::Array(elements, extent) => {
            capped(size_of(*extent), scalars_of_shape(counts, elements.get()))
        }
    }
}

// How many elements an array has. An open size counts as none.
fn size_of(extent: Extent) -> u32
    ensures { result ≡ size_in [] (stated_size extent) }
{
    match extent {
        Extent::Stated(count) => count,
        Extent::Unstated => 0,
    }
}

// The scalars of a struct by its number.
fn count_of(counts: &[u32], number: u32) -> u32
    ensures { result ≡ get_or counts.now number 0 }
{
    match counts.get(number as usize) {
        Some(count) => *count,
        None => 0,
    }
}

// A product of which no more is told than that it is above the limit.
fn capped(a: u32, b: u32) -> u32
    requires { b ≤ SCALARS + 1 }
    ensures { result ≡ min (a * b) (SCALARS + 1) }
{
    let product = a as u64 * b as u64;
    product.min(SCALARS as u64 + 1) as u32
}
