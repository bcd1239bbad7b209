//! Shapes and values.

use ctl_base::{Memory, ScalarKind};
use ctl_types::{Base, Extent, LocalShape, Shape, Size, Value};
use std::fmt::Write;

pub(crate) fn kind_word(kind: ScalarKind) -> &'static str {
    match kind {
        ScalarKind::Bool => "bool",
        ScalarKind::Int => "int",
        ScalarKind::Unsigned => "unsigned",
        ScalarKind::Half => "half",
        ScalarKind::Float => "float",
    }
}

/// The scalars of a value as words, each behind a blank.
#[cycle(put_value)]
pub(crate) fn put_words(out: &mut String, value: &Value) -> Result<(), Memory> {
    match value {
        Value::One(scalar) => {
            let word = scalar.word().raw();
            Ok(write!(out, " {word}")?)
        }
        Value::List(parts) => put_all(out, parts.as_slice()),
        Value::Fields(parts) => put_all(out, parts.as_slice()),
    }
}

#[cycle(put_value)]
fn put_all(out: &mut String, parts: &[Value]) -> Result<(), Memory> {
    for part in parts {
        put_words(out, part)?;
    }
    Ok(())
}

fn put_base(out: &mut String, base: Base) -> Result<(), Memory> {
    match base {
        Base::Scalar(kind) => out.push_str(kind_word(kind))?,
        Base::Struct(number) => write!(out, "struct{number}")?,
    }
    Ok(())
}

/// What the arrays of a shape hold, and their sizes from the outermost.
pub(crate) fn put_shape(out: &mut String, shape: &Shape) -> Result<(), Memory> {
    put_base(out, shape.base())?;
    put_extents(out, shape)
}

fn put_extents(out: &mut String, shape: &Shape) -> Result<(), Memory> {
    match shape {
        Shape::Array(elements, extent) => {
            match extent {
                Extent::Stated(size) => write!(out, "[{size}]")?,
                Extent::Unstated => out.push_str("[]")?,
            }
            put_extents(out, elements.get())
        }
        _ => Ok(()),
    }
}

/// The same of a shape inside a function.
pub(crate) fn put_local(out: &mut String, shape: &LocalShape) -> Result<(), Memory> {
    put_base(out, shape.base)?;
    for size in shape.sizes.as_slice() {
        match size {
            Size::Stated(size) => write!(out, "[{size}]")?,
            Size::Open(_) => out.push_str("[]")?,
        }
    }
    Ok(())
}

/// Bytes of ASCII.
pub(crate) fn put_bytes(out: &mut String, bytes: &[u8]) -> Result<(), Memory> {
    for byte in bytes {
        out.push(*byte as char)?;
    }
    Ok(())
}
