//! Shapes, as definitions state them and as they are known inside a function.

ghost use Rattle.std.specs.Prelude.{◌≡◌, [], ◌∷◌, ◌++◌, ◌≤◌, true, IfOk, IfErr, OnOk};
ghost use Rattle.std.specs.Option.{option_copied};
ghost use Rattle.ctl_types.specs.Shapes.{extents, base_of};
ghost use Rattle.ctl_types.specs.Values.{sizes_at, sizes_fit, own_size, part_of, length_of};
ghost use Rattle.ctl_base.specs.declared.limits.TheConstants.{ARRAY_SIZE};

use crate::Value;
use ctl_base::{Memory, ScalarKind};
use smallvec::SmallVec;
use sqlite_items::Boxed;
use std::alloc::Global;
use std::marker::Model;

/// The size of an array as a definition states it, or leaves it open.
#[derive(Clone, Copy, PartialEq, Eq)]
pub enum Extent {
    Stated(u32),
    Unstated,
}

/// The shape of a value: a scalar, a struct by its number, or an array by the shape of its elements.
#[derive(Drop)]
pub enum Shape {
    Scalar(ScalarKind),
    Struct(u32),
    Array(Boxed<Shape>, Extent),
}

/// What arrays hold in the end: scalars of a kind, or structs by their number.
#[derive(Clone, Copy, PartialEq, Eq)]
pub enum Base {
    Scalar(ScalarKind),
    Struct(u32),
}

/// The size of an array inside a function: stated, or one of the sizes that the function was called
/// with. These are numbered from 0 over the open extents of all parameters, from the left.
#[derive(Clone, Copy, PartialEq, Eq)]
pub enum Size {
    Stated(u32),
    Open(u32),
}

impl Default for Size {
    fn default() -> Size {
        Size::Stated(1)
    }
}

/// Sizes in their order. Most lists are short, and these take no memory.
#[derive(Drop)]
pub struct SizeList {
    sizes: SmallVec<Size, 4>,
}

impl Model for SizeList {
    ghost use Rattle.std.specs.Prelude.{List};
    ghost use Rattle.ctl_types.specs.declared.shape.Size.{Size};

    ghost Value = { List Size };

    ghost view = { λ s. s.sizes.items };
}

/// The shape of a value inside a function: the sizes of its arrays, the outermost first, and what
/// they hold. A scalar and a struct have no sizes.
#[derive(Drop)]
pub struct LocalShape {
    pub sizes: SizeList,
    pub base: Base,
}

impl SizeList {
    pub fn new(alloc: Global) -> SizeList
        ensures { result ≡ [] }
    {
        SizeList {
            sizes: SmallVec::new(alloc),
        }
    }

    /// Puts a size last. A list that has no room for it stays as it was.
    pub fn push(&mut self, size: Size) -> Result<(), Memory>
        ensures last { IfOk result (λ _. self.new ≡ self.old ++ (size ∷ [])) }
        ensures kept { IfErr result (λ _. self.new ≡ self.old) }
    {
        self.sizes.push(size)?;
        Ok(())
    }

    pub fn as_slice(&self) -> &[Size]
        ensures { result.now ≡ self.now }
    {
        self.sizes.as_slice()
    }
}

/// The open sizes that a function is called with, in the order of their numbers.
#[derive(Drop)]
pub struct OpenSizes {
    sizes: SmallVec<u32, 4>,
}

impl Model for OpenSizes {
    ghost use Rattle.std.specs.Prelude.{List, ℕ};

    ghost Value = { List ℕ };

    ghost view = { λ s. s.sizes.items };
}

impl OpenSizes {
    pub fn new(alloc: Global) -> OpenSizes
        ensures { result ≡ [] }
    {
        OpenSizes {
            sizes: SmallVec::new(alloc),
        }
    }

    /// Puts a size last. A list that has no room for it stays as it was.
    pub fn push(&mut self, size: u32) -> Result<(), Memory>
        ensures last { IfOk result (λ _. self.new ≡ self.old ++ (size ∷ [])) }
        ensures kept { IfErr result (λ _. self.new ≡ self.old) }
    {
        self.sizes.push(size)?;
        Ok(())
    }

    pub fn as_slice(&self) -> &[u32]
        ensures { result.now ≡ self.now }
    {
        self.sizes.as_slice()
    }
}

impl Shape {
    /// What its arrays hold in the end.
    pub fn base(&self) -> Base
        ensures { result ≡ base_of self.now }
    {
        match self {
            Shape::Scalar(kind) => Base::Scalar(*kind),
            Shape::Struct(number) => Base::Struct(*number),
            Shape::Array(elements, _) => elements.get().base(),
        }
    }

    /// Puts the sizes that a value has at the open extents, the outermost first, behind those that
    /// are there.
    pub fn append_open_sizes(
        &self,
        value: Option<&Value>,
        sizes: &mut OpenSizes,
    ) -> Result<(), Memory>
        requires { sizes_fit (sizes_at (extents self.now) (option_copied value)) ≡ true }
        ensures { OnOk result (sizes.new ≡ sizes.old ++ sizes_at (extents self.now) (option_copied value.entry)) }
    {
        match self {
            Shape::Scalar(_) => Ok(()),
            Shape::Struct(_) => Ok(()),
            Shape::Array(elements, extent) => {
                append_open_size(*extent, value, sizes)?;
                elements.get().append_open_sizes(first_part(value), sizes)?;
                Ok(())
            }
        }
    }
}

// The first part of a value.
fn first_part(value: Option<&Value>) -> Option<&Value>
    ensures { option_copied result ≡ part_of (option_copied value.entry) 0 }
{
    match value {
        Some(whole) => whole.part(0),
        None => None,
    }
}

// Puts the size of an array at an open extent behind those that are there.
fn append_open_size(
    extent: Extent,
    value: Option<&Value>,
    sizes: &mut OpenSizes,
) -> Result<(), Memory>
    requires { sizes_fit (own_size extent (option_copied value)) ≡ true }
    ensures { OnOk result (sizes.new ≡ sizes.old ++ own_size extent (option_copied value.entry)) }
{
    match extent {
        Extent::Stated(_) => Ok(()),
        Extent::Unstated => {
            sizes.push(count(value))?;
            Ok(())
        }
    }
}

// How many elements an array has.
fn count(value: Option<&Value>) -> u32
    requires { length_of (option_copied value) ≤ ARRAY_SIZE }
    ensures { result ≡ length_of (option_copied value.entry) }
{
    match value {
        Some(array) => array.len() as u32,
        None => 0,
    }
}
