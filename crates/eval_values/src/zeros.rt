//! Values all of whose scalars are zero.

ghost use Rattle.std.specs.Prelude.{◌≡◌, replicate, IfOk};
ghost use Rattle.ctl_types.specs.Shapes.{whole_of, base_of};
ghost use Rattle.ctl_types.specs.Values.{zero_of, zero_base, zero_struct, struct_zeros};

use crate::shapes::own_size;
use ctl_base::Memory;
use ctl_types::{Base, Shape, Struct, Value};
use eval_scalars::zero_scalar;
use sqlite_items::Items;
use std::alloc::Global;

fn zero_base(alloc: Global, zeros: &[Value], base: Base) -> Result<Value, Memory>
    ensures { IfOk result (λ v. v ≡ zero_base zeros.now base) }
{
    match base {
        Base::Scalar(kind) => Ok(Value::One(zero_scalar(kind))),
        Base::Struct(number) => match zeros.get(number as usize) {
            Some(zero) => zero.copy(alloc),
            None => Ok(Value::Fields(Items::new(alloc))),
        },
    }
}

fn copies(alloc: Global, value: &Value, count: usize) -> Result<Items<Value>, Memory>
    ensures { IfOk result (λ vs. vs ≡ replicate count value.now) }
{
    let mut copied = Items::new(alloc);
    let mut left = count;
    while left > 0 {
        copied.push(value.copy(alloc)?)?;
        left -= 1;
    }
    Ok(copied)
}

/// The zero of a shape, which is known by its sizes and its base.
pub fn zero_of(alloc: Global, zeros: &[Value], sizes: &[u32], base: Base) -> Result<Value, Memory>
    ensures { IfOk result (λ v. v ≡ zero_of zeros.now sizes.now base) }
{
    match sizes.split_first() {
        None => zero_base(alloc, zeros, base),
        Some((size, rest)) => {
            let inner = zero_of(alloc, zeros, rest, base)?;
            let parts = copies(alloc, &inner, *size as usize)?;
            Ok(Value::List(parts))
        }
    }
}

/// The zero of a shape as a definition states it.
pub fn zero_of_shape(alloc: Global, zeros: &[Value], shape: &Shape) -> Result<Value, Memory>
    ensures { IfOk result (λ v. v ≡ zero_of zeros.now (whole_of shape.now).sizes (base_of shape.now)) }
{
    match shape {
        Shape::Scalar(kind) => zero_base(alloc, zeros, Base::Scalar(*kind)),
        Shape::Struct(number) => zero_base(alloc, zeros, Base::Struct(*number)),
        Shape::Array(elements, extent) => {
            let inner = zero_of_shape(alloc, zeros, elements.get())?;
            let parts = copies(alloc, &inner, own_size(*extent, &[]))?;
            Ok(Value::List(parts))
        }
    }
}

fn zero_struct(alloc: Global, zeros: &[Value], definition: &Struct) -> Result<Value, Memory>
    ensures { IfOk result (λ v. v ≡ zero_struct zeros.now definition.now) }
{
    let mut fields = Items::new(alloc);
    for field in definition.fields.as_slice() {
        fields.push(zero_of_shape(alloc, zeros, &field.shape)?)?;
    }
    Ok(Value::Fields(fields))
}

/// The zero of each struct.
pub fn struct_zeros(alloc: Global, structs: &[Struct]) -> Result<Items<Value>, Memory>
    ensures { IfOk result (λ zeros. zeros ≡ struct_zeros structs.now) }
{
    let mut zeros = Items::new(alloc);
    for definition in structs {
        zeros.push(zero_struct(alloc, zeros.as_slice(), definition)?)?;
    }
    Ok(zeros)
}
