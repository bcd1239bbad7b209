//! Which shapes fit which.

ghost use Rattle.std.specs.Prelude.{◌≡◌, [], ◌++◌, map, Some, None, if◌then◌else◌, IfOk, OnOk};
ghost use Rattle.std.specs.Option.{option_copied};
ghost use Rattle.ctl_types.specs.declared.shape.Size.TheVariants.{Stated};
ghost use Rattle.ctl_types.specs.declared.shape.Base.TheVariants.{Scalar};
ghost use Rattle.ctl_types.specs.declared.expression.Conversion.TheVariants.{Same};
ghost use Rattle.ctl_types.specs.Shapes.{extents, base_of};
ghost use Rattle.ctl_types.specs.Values.{sizes_at, own_size, length_of, part_of};
ghost use Rattle.ctl_types.specs.Typing.{same_base, same_size};
ghost use Rattle.ctl_check_rules.specs.Shapes.{stated_size, stated_sizes, short, extent_fits, extents_fit, open_size, open_sizes_in, base_conversion, fitting};

use crate::operators::between;
use ctl_base::{Memory, ScalarKind};
use ctl_types::{Base, Conversion, Extent, Shape, Size, SizeList, Value};
use std::alloc::Global;

/// The same sizes.
pub fn copy_sizes(alloc: Global, sizes: &[Size]) -> Result<SizeList, Memory>
    ensures { IfOk result (λ copy. copy ≡ sizes.now) }
{
    let mut copy = SizeList::new(alloc);
    for size in sizes {
        copy.push(*size)?;
    }
    Ok(copy)
}

// A stated size.
fn stated_size(extent: Extent) -> Size
    ensures { result ≡ stated_size extent }
{
    match extent {
        Extent::Stated(n) => Size::Stated(n),
        Extent::Unstated => Size::Stated(0),
    }
}

/// The sizes of a shape whose sizes are all stated.
pub fn stated_sizes(alloc: Global, shape: &Shape) -> Result<SizeList, Memory>
    ensures { IfOk result (λ sizes. sizes ≡ stated_sizes shape.now) }
{
    let mut sizes = SizeList::new(alloc);
    append_stated(shape, &mut sizes)?;
    Ok(sizes)
}

// Puts the sizes of a shape behind those that are there.
fn append_stated(shape: &Shape, sizes: &mut SizeList) -> Result<(), Memory>
    ensures { OnOk result (sizes.new ≡ sizes.old ++ stated_sizes shape.now) }
{
    match shape {
        Shape::Scalar(_) => Ok(()),
        Shape::Struct(_) => Ok(()),
        Shape::Array(elements, extent) => {
            sizes.push(stated_size(*extent))?;
            append_stated(elements.get(), sizes)?;
            Ok(())
        }
    }
}

// Whether two sizes are the same.
fn same_size(a: Size, b: Size) -> bool
    ensures { result ≡ same_size a b }
{
    a == b
}

// Whether two bases are the same.
fn same_base(a: Base, b: Base) -> bool
    ensures { result ≡ same_base a b }
{
    a == b
}

// Whether a size fits a stated one, or an open one.
fn extent_fits(extent: Extent, size: Size) -> bool
    ensures { result ≡ extent_fits extent size }
{
    match extent {
        Extent::Stated(n) => same_size(Size::Stated(n), size),
        Extent::Unstated => true,
    }
}

// Whether sizes fit a shape: as many are wanted, and each fits.
fn sizes_fit(shape: &Shape, sizes: &[Size]) -> bool
    ensures { result ≡ extents_fit (extents shape.now) sizes.now }
{
    match shape {
        Shape::Scalar(_) => sizes.is_empty(),
        Shape::Struct(_) => sizes.is_empty(),
        Shape::Array(elements, extent) => match sizes.split_first() {
            Some((size, inner)) => extent_fits(*extent, *size) && sizes_fit(elements.get(), inner),
            None => false,
        },
    }
}

/// Puts the sizes at the open extents of a shape behind those that are there.
pub fn append_open(shape: &Shape, given: &[Size], sizes: &mut SizeList) -> Result<(), Memory>
    ensures { OnOk result (sizes.new ≡ sizes.old ++ open_sizes_in (extents shape.now) given.now) }
{
    match shape {
        Shape::Scalar(_) => Ok(()),
        Shape::Struct(_) => Ok(()),
        Shape::Array(elements, extent) => match given.split_first() {
            Some((size, inner)) => {
                append_open_size(*extent, *size, sizes)?;
                append_open(elements.get(), inner, sizes)?;
                Ok(())
            }
            None => Ok(()),
        },
    }
}

// Puts a size at an open extent behind those that are there.
fn append_open_size(extent: Extent, size: Size, sizes: &mut SizeList) -> Result<(), Memory>
    ensures { OnOk result (sizes.new ≡ sizes.old ++ open_size extent size) }
{
    match extent {
        Extent::Stated(_) => Ok(()),
        Extent::Unstated => {
            sizes.push(size)?;
            Ok(())
        }
    }
}

// A number of elements as it is kept.
fn short(count: usize) -> u32
    ensures { result ≡ short count }
{
    if count <= u32::MAX as usize {
        count as u32
    } else {
        u32::MAX
    }
}

/// Puts the sizes that a default has at the open extents of a shape behind those that are there.
pub fn append_default(
    shape: &Shape,
    value: Option<&Value>,
    sizes: &mut SizeList,
) -> Result<(), Memory>
    ensures { OnOk result (sizes.new ≡ sizes.old ++ map (λ n. Stated (short n)) (sizes_at (extents shape.now) (option_copied value.entry))) }
{
    match shape {
        Shape::Scalar(_) => Ok(()),
        Shape::Struct(_) => Ok(()),
        Shape::Array(elements, extent) => {
            append_default_size(*extent, value, sizes)?;
            append_default(elements.get(), first_part(value), sizes)?;
            Ok(())
        }
    }
}

// The first part of a value.
fn first_part(value: Option<&Value>) -> Option<&Value>
    ensures { option_copied result ≡ part_of (option_copied value.entry) 0 }
{
    match value {
        Some(whole) => whole.part(0),
        None => None,
    }
}

// Puts the size of a default at an open extent behind those that are there.
fn append_default_size(
    extent: Extent,
    value: Option<&Value>,
    sizes: &mut SizeList,
) -> Result<(), Memory>
    ensures { OnOk result (sizes.new ≡ sizes.old ++ map (λ n. Stated (short n)) (own_size extent (option_copied value.entry))) }
{
    match extent {
        Extent::Stated(_) => Ok(()),
        Extent::Unstated => {
            sizes.push(Size::Stated(short(count(value))))?;
            Ok(())
        }
    }
}

// How many elements an array has.
fn count(value: Option<&Value>) -> usize
    ensures { result ≡ length_of (option_copied value.entry) }
{
    match value {
        Some(array) => array.len(),
        None => 0,
    }
}

// What is done to a scalar or a struct where this base is wanted.
fn plain_conversion(wanted: Base, given: Base) -> Option<Conversion>
    ensures { result ≡ base_conversion [] wanted (Some given) }
{
    match wanted {
        Base::Scalar(kind) => scalar_conversion(kind, given),
        Base::Struct(_) => same_conversion(wanted, given),
    }
}

// What is done to a scalar where this kind is wanted.
fn scalar_conversion(wanted: ScalarKind, given: Base) -> Option<Conversion>
    ensures { result ≡ base_conversion [] (Scalar wanted) (Some given) }
{
    match given {
        Base::Scalar(kind) => Some(between(kind, wanted)),
        Base::Struct(_) => None,
    }
}

// The same base is wanted.
fn same_conversion(wanted: Base, given: Base) -> Option<Conversion>
    ensures { result ≡ if same_base wanted given then Some Same else None }
{
    if same_base(wanted, given) {
        Some(Conversion::Same)
    } else {
        None
    }
}

/// What is done to a value of some sizes where this base is wanted.
pub fn base_conversion(sizes: &[Size], wanted: Base, given: Option<Base>) -> Option<Conversion>
    ensures { result ≡ base_conversion sizes.now wanted given }
{
    let Some(given) = given else {
        return None;
    };
    if sizes.is_empty() {
        plain_conversion(wanted, given)
    } else {
        same_conversion(wanted, given)
    }
}

/// What is done to a value of a shape where another is wanted, and none where it doesn't fit.
pub fn fitting(shape: &Shape, sizes: &[Size], base: Option<Base>) -> Option<Conversion>
    ensures { result ≡ fitting (extents shape.now) (base_of shape.now) sizes.now base }
{
    if sizes_fit(shape, sizes) {
        base_conversion(sizes, shape.base(), base)
    } else {
        None
    }
}
