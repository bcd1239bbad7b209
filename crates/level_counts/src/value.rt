//! Shapes of values all of whose sizes are numbers.

ghost use Rattle.std.specs.Prelude.{◌≡◌, ◌+◌, ◌≤◌, ◌++◌, [], drop, get_or, length, map, min, IfOk, OnOk};
ghost use Rattle.ctl_types.specs.Shapes.{extents, numbered, size_in, open_count};
ghost use Rattle.level_counts.specs.Shapes.{item_of, value_shape, stated_shape, stated_if, element_shape};

use ctl_base::Memory;
use ctl_types::{Base, Extent, LocalShape, OpenSizes, Shape, Size};
use std::alloc::Global;

/// What the arrays of a value hold in the end: nothing for what gives no value, a scalar, or a
/// struct by its number.
#[derive(Clone, Copy)]
pub enum Item {
    Nothing,
    Scalar,
    Struct(u32),
}

/// The shape of a value: the sizes of its arrays, the outermost first, and what they hold.
#[derive(Drop)]
pub struct ValueShape {
    pub sizes: OpenSizes,
    pub item: Item,
}

impl ValueShape {
    /// What is no array.
    pub fn alone(alloc: Global, item: Item) -> ValueShape
        ensures { result ≡ record { sizes = []; item = item } }
    {
        ValueShape {
            sizes: OpenSizes::new(alloc),
            item,
        }
    }

    /// The same shape.
    pub fn copy(&self, alloc: Global) -> Result<ValueShape, Memory>
        ensures { IfOk result (λ value. value ≡ self.now) }
    {
        Ok(ValueShape {
            sizes: copied(alloc, self.sizes.as_slice())?,
            item: self.item,
        })
    }

    /// The shape of the elements.
    pub fn element(&self, alloc: Global) -> Result<ValueShape, Memory>
        ensures { IfOk result (λ value. value ≡ element_shape self.now) }
    {
        Ok(ValueShape {
            sizes: copied(alloc, inner(self.sizes.as_slice()))?,
            item: self.item,
        })
    }
}

fn copied(alloc: Global, sizes: &[u32]) -> Result<OpenSizes, Memory>
    ensures { IfOk result (λ copy. copy ≡ sizes.now) }
{
    let mut copy = OpenSizes::new(alloc);
    for size in sizes {
        copy.push(*size)?;
    }
    Ok(copy)
}

// The sizes without the outermost.
fn inner(sizes: &[u32]) -> &[u32]
    ensures { result.now ≡ drop 1 sizes.now }
{
    match sizes {
        [] => &[],
        [_, rest @ ..] => rest,
    }
}

fn item_of(base: Base) -> Item
    ensures { result ≡ item_of base }
{
    match base {
        Base::Scalar(_) => Item::Scalar,
        Base::Struct(number) => Item::Struct(number),
    }
}

fn size_at(opens: &[u32], number: usize) -> u32
    ensures { result ≡ get_or opens.now number 0 }
{
    if number < opens.len() {
        opens[number]
    } else {
        0
    }
}

fn size_in(size: Size, opens: &[u32]) -> u32
    ensures { result ≡ size_in opens.now size }
{
    match size {
        Size::Stated(count) => count,
        Size::Open(number) => size_at(opens, number as usize),
    }
}

fn sizes_in(alloc: Global, sizes: &[Size], opens: &[u32]) -> Result<OpenSizes, Memory>
    ensures { IfOk result (λ all. all ≡ map (size_in opens.now) sizes.now) }
{
    let mut all = OpenSizes::new(alloc);
    for size in sizes {
        all.push(size_in(*size, opens))?;
    }
    Ok(all)
}

/// The shape of a variable in an instance with these open sizes.
pub fn value_of_local(
    alloc: Global,
    shape: &LocalShape,
    opens: &[u32],
) -> Result<ValueShape, Memory>
    ensures { IfOk result (λ value. value ≡ value_shape opens.now shape.now) }
{
    Ok(ValueShape {
        sizes: sizes_in(alloc, shape.sizes.as_slice(), opens)?,
        item: item_of(shape.base),
    })
}

// The number of the next open size, or how many there are.
fn next(opens: &[u32], number: usize) -> usize
    requires { number ≤ length opens.now }
    ensures { result ≡ min (number + 1) (length opens.now) }
{
    if number < opens.len() {
        number + 1
    } else {
        number
    }
}

/// Puts the sizes of a parameter, where this many open sizes stand before, behind those that are there. With Ok this many
/// open sizes stand before what comes next.
pub fn append_sizes(
    shape: &Shape,
    opens: &[u32],
    number: usize,
    sizes: &mut OpenSizes,
) -> Result<usize, Memory>
    requires { number ≤ length opens.now }
    ensures sizes { OnOk result (sizes.new ≡ sizes.old ++ map (size_in opens.now) (numbered number (extents shape.now))) }
    ensures next { IfOk result (λ after. after ≡ min (number + open_count (extents shape.now)) (length opens.now)) }
{
    match shape {
        Shape::Scalar(_) => Ok(number),
        Shape::Struct(_) => Ok(number),
        Shape::Array(elements, extent) => match *extent {
            Extent::Stated(count) => {
                sizes.push(count)?;
                let after = append_sizes(elements.get(), opens, number, sizes)?;
                Ok(after)
            }
            Extent::Unstated => {
                sizes.push(size_at(opens, number))?;
                let after = append_sizes(elements.get(), opens, next(opens, number), sizes)?;
                Ok(after)
            }
        },
    }
}

/// What arrays of a shape hold.
pub fn item_in(shape: &Shape) -> Item
    ensures { result ≡ (stated_shape shape.now).item }
{
    item_of(shape.base())
}

/// A shape whose sizes are all stated.
pub fn value_of_shape(alloc: Global, shape: &Shape) -> Result<ValueShape, Memory>
    ensures { IfOk result (λ value. value ≡ stated_shape shape.now) }
{
    let mut sizes = OpenSizes::new(alloc);
    append_sizes(shape, &[], 0, &mut sizes)?;
    Ok(ValueShape {
        sizes,
        item: item_in(shape),
    })
}

/// A shape that may be absent.
pub fn value_if(alloc: Global, shape: &Option<Shape>) -> Result<ValueShape, Memory>
    ensures { IfOk result (λ value. value ≡ stated_if shape.now) }
{
    match shape {
        Some(shape) => value_of_shape(alloc, shape),
        None => Ok(ValueShape::alone(alloc, Item::Nothing)),
    }
}
