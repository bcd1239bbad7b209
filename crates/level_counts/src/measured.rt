//! What is measured of an expression.

ghost use Rattle.std.specs.Prelude.{◌≡◌};
ghost use Rattle.level_counts.specs.Told.{told};
ghost use Rattle.level_counts.specs.Shapes.{one_scalar};
ghost use Rattle.level_counts.specs.Parts.{measured, own_parts};

use crate::definitions::Definitions;
use crate::told::and;
use crate::value::{Item, ValueShape};
use std::alloc::Global;

/// Of an expression: the shape of its value, and its parts.
#[derive(Drop)]
pub struct Measured {
    pub value: ValueShape,
    pub parts: u64,
}

/// What an expression or brace list counts itself.
pub fn own_parts(definitions: &Definitions<'_>, value: &ValueShape) -> u64
    ensures { result ≡ told (own_parts definitions.now value.now) }
{
    and(1, definitions.scalars(value))
}

/// An expression with this value, by the parts of what is in it.
pub fn add_own(definitions: &Definitions<'_>, inner: u64, value: ValueShape) -> Measured
    ensures value { result.value ≡ value }
    ensures parts { result.parts ≡ told (measured definitions.now inner value).parts }
{
    let parts = and(inner, own_parts(definitions, &value));
    Measured { value, parts }
}

/// A scalar.
pub fn scalar_of(alloc: Global, definitions: &Definitions<'_>, inner: u64) -> Measured
    ensures value { result.value ≡ one_scalar }
    ensures parts { result.parts ≡ told (measured definitions.now inner one_scalar).parts }
{
    add_own(definitions, inner, ValueShape::alone(alloc, Item::Scalar))
}
