//! The sizes of shapes: which are open, and what they are inside a function.

ghost use Rattle.std.specs.Prelude.{◌≡◌, ◌+◌, ◌++◌, IfOk, OnOk};
ghost use Rattle.ctl_types.specs.Shapes.{extents, local, numbered, open_count};
ghost use Rattle.ctl_types.specs.Typing.{are_stated};

use ctl_base::Memory;
use ctl_types::{Extent, LocalShape, Shape, Size, SizeList};
use std::alloc::Global;

/// Whether no size of a shape is open.
pub(crate) fn is_stated(shape: &Shape) -> bool
    ensures { result ≡ are_stated (local 0 shape.now).sizes }
{
    match shape {
        Shape::Scalar(_) => true,
        Shape::Struct(_) => true,
        Shape::Array(elements, Extent::Stated(_)) => is_stated(elements.get()),
        Shape::Array(_, Extent::Unstated) => false,
    }
}

/// A shape inside its function, where so many open sizes stand before.
pub(crate) fn local_shape(alloc: Global, before: u32, shape: &Shape) -> Result<LocalShape, Memory>
    ensures { IfOk result (λ inside. inside ≡ local before shape.now) }
{
    let mut sizes = SizeList::new(alloc);
    append_sizes(shape, before, &mut sizes)?;
    Ok(LocalShape {
        sizes,
        base: shape.base(),
    })
}

// Puts the sizes of a shape behind those that are there. The open ones are numbered from a number on.
fn append_sizes(shape: &Shape, number: u32, sizes: &mut SizeList) -> Result<(), Memory>
    ensures { OnOk result (sizes.new ≡ sizes.old ++ numbered number (extents shape.now)) }
{
    match shape {
        Shape::Scalar(_) => Ok(()),
        Shape::Struct(_) => Ok(()),
        Shape::Array(elements, Extent::Stated(count)) => {
            sizes.push(Size::Stated(*count))?;
            append_sizes(elements.get(), number, sizes)?;
            Ok(())
        }
        Shape::Array(elements, Extent::Unstated) => {
            sizes.push(Size::Open(number))?;
            append_sizes(elements.get(), next(number)?, sizes)?;
            Ok(())
        }
    }
}

/// How many sizes of a shape are open.
pub(crate) fn open_count(shape: &Shape) -> Result<u32, Memory>
    ensures { IfOk result (λ count. count ≡ open_count (extents shape.now)) }
{
    match shape {
        Shape::Scalar(_) => Ok(0),
        Shape::Struct(_) => Ok(0),
        Shape::Array(elements, Extent::Stated(_)) => open_count(elements.get()),
        Shape::Array(elements, Extent::Unstated) => next(open_count(elements.get())?),
    }
}

/// The number behind this one. More than 32 bits can count have no room.
pub(crate) fn next(number: u32) -> Result<u32, Memory>
    ensures { IfOk result (λ n. n ≡ number + 1) }
{
    match number.checked_add(1) {
        Some(next) => Ok(next),
        None => Err(Memory),
    }
}
