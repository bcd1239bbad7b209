//! The functions of the library, with their parameters and results as shapes.

ghost use Rattle.std.specs.Prelude.{◌≡◌, IfOk, map, replicate};
ghost use Rattle.ctl_types.specs.declared.shape.Extent.TheVariants.{Stated, Unstated};
ghost use Rattle.ctl_types.specs.Shapes.{arrays};
ghost use Rattle.ctl_types.specs.Library.{library_row, shape_of, shape_of_base, param_of, result_of};

use crate::{Extent, Shape};
use ctl_base::Memory;
use ctl_stdlib::{Base, LibraryId, Param, RowShape, params, result};
use sqlite_items::{Boxed, Items};
use std::alloc::Global;

/// A parameter of a function of the library.
#[derive(Drop)]
pub struct RowParam {
    pub shape: Shape,
    pub is_output: bool,
}

/// The parameters and the result of a function of the library.
#[derive(Drop)]
pub struct Row {
    pub params: Items<RowParam>,
    pub result: Option<Shape>,
}

/// The parameters and the result of a function of the library, as shapes.
pub fn row_of(alloc: Global, id: LibraryId) -> Result<Row, Memory>
    ensures { IfOk result (λ row. row ≡ library_row id) }
{
    let mut shapes = Items::new(alloc);
    for param in params(id) {
        shapes.push(param_of(alloc, *param)?)?;
    }
    let result = result_of(alloc, result(id))?;
    Ok(Row {
        params: shapes,
        result,
    })
}

fn param_of(alloc: Global, param: Param) -> Result<RowParam, Memory>
    ensures { IfOk result (λ row_param. row_param ≡ param_of param) }
{
    Ok(RowParam {
        shape: shape_of(alloc, param.shape)?,
        is_output: param.is_output,
    })
}

fn result_of(alloc: Global, shape: Option<RowShape>) -> Result<Option<Shape>, Memory>
    ensures { IfOk result (λ whole. whole ≡ result_of shape) }
{
    match shape {
        Some(shape) => Ok(Some(shape_of(alloc, shape)?)),
        None => Ok(None),
    }
}

// The open sizes stand outside the stated ones.
fn shape_of(alloc: Global, shape: RowShape) -> Result<Shape, Memory>
    ensures { IfOk result (λ whole. whole ≡ shape_of shape) }
{
    let inner = stated(alloc, shape.stated_sizes(), shape_of_base(shape.base()))?;
    opened(alloc, shape.open_sizes(), inner)
}

fn shape_of_base(base: Base) -> Shape
    ensures { result ≡ shape_of_base base }
{
    match base {
        Base::Scalar(kind) => Shape::Scalar(kind),
        Base::Chromaticities => Shape::Struct(0),
    }
}

// Arrays of these sizes, the outermost first, around a shape.
fn stated(alloc: Global, sizes: &[u32], inner: Shape) -> Result<Shape, Memory>
    ensures { IfOk result (λ whole. whole ≡ arrays (map Stated sizes.now) inner) }
{
    match sizes.split_first() {
        Some((size, rest)) => {
            let elements = stated(alloc, rest, inner)?;
            Ok(Shape::Array(Boxed::new(alloc, elements)?, Extent::Stated(*size)))
        }
        None => Ok(inner),
    }
}

// So many arrays of open size around a shape.
fn opened(alloc: Global, count: u32, inner: Shape) -> Result<Shape, Memory>
    ensures { IfOk result (λ whole. whole ≡ arrays (replicate count Unstated) inner) }
{
    let mut whole = inner;
    for _ in 0..count {
        whole = Shape::Array(Boxed::new(alloc, whole)?, Extent::Unstated);
    }
    Ok(whole)
}
