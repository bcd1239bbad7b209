//! Whether values are of a shape.

ghost use Rattle.std.specs.Prelude.{◌≡◌, ◌&&◌, ◌∷◌, [], ◌++◌, map, Some, None, OnOk};
ghost use Rattle.fix_num.specs.declared.TheConstants.{FRACTION};
ghost use Rattle.ctl_types.specs.Scalars.{kind_of, word_of, same_kind, in_range as in_range_of};
ghost use Rattle.ctl_types.specs.Shapes.{extents, base_of, size_in, field_shapes};
ghost use Rattle.ctl_types.specs.declared.program.Field.{Field as FieldForm};
ghost use Rattle.eval_values.specs.Sizes.{sizes_of, own, left};
ghost use Rattle.ctl_types.specs.Values.{alike, all_alike, fits, fit_one, all_fit, each_fit, fit_fields};

use ctl_types::{Base, Extent, Field, Scalar, Shape, Struct, Value};
use eval_scalars::{in_range, is_of};

fn alike_scalars(a: &Scalar, b: &Scalar) -> bool
    ensures { result ≡ (same_kind (kind_of a.now) (kind_of b.now) && in_range_of FRACTION (kind_of a.now) (word_of b.now)) }
{
    match a {
        Scalar::Bool(_) => matches!(b, Scalar::Bool(_)) && in_range(b),
        Scalar::Int(_) => matches!(b, Scalar::Int(_)) && in_range(b),
        Scalar::Unsigned(_) => matches!(b, Scalar::Unsigned(_)) && in_range(b),
        Scalar::Half(_) => matches!(b, Scalar::Half(_)) && in_range(b),
        Scalar::Float(_) => matches!(b, Scalar::Float(_)) && in_range(b),
    }
}

/// Whether a value has the shape of another one, and its scalars are in the range of their kind.
#[cycle(alike)]
pub fn alike(old: &Value, new: &Value) -> bool
    ensures { result ≡ alike old.now new.now }
{
    match old {
        Value::One(a) => match new {
            Value::One(b) => alike_scalars(a, b),
            _ => false,
        },
        Value::List(parts) => match new {
            Value::List(others) => all_alike(parts.as_slice(), others.as_slice()),
            _ => false,
        },
        Value::Fields(parts) => match new {
            Value::Fields(others) => all_alike(parts.as_slice(), others.as_slice()),
            _ => false,
        },
    }
}

#[cycle(alike)]
fn all_alike(parts: &[Value], others: &[Value]) -> bool
    ensures { result ≡ all_alike (map alike parts.now) others.now }
{
    let mut i = 0;
    'each: while i < parts.len() {
        if i >= others.len() {
            return false;
        }
        if !alike(&parts[i], &others[i]) {
            return false;
        }
        i += 1;
    }
    i == others.len()
}

fn fits_one(scalar: &Scalar, sizes: &[u32], base: Option<Base>) -> bool
    ensures { result ≡ fit_one scalar.now sizes.now base }
{
    if !sizes.is_empty() {
        return false;
    }
    match base {
        Some(Base::Scalar(kind)) => is_of(scalar, kind) && in_range(scalar),
        Some(Base::Struct(_)) => false,
        None => false,
    }
}

/// Whether a value is of a shape, which is known by its sizes and its base. What gives no value has no base.
#[cycle(fits)]
pub fn fits(structs: &[Struct], value: &Value, sizes: &[u32], base: Option<Base>) -> bool
    ensures { result ≡ fits structs.now value.now sizes.now base }
{
    match value {
        Value::One(scalar) => fits_one(scalar, sizes, base),
        Value::List(parts) => match sizes.split_first() {
            Some((size, rest)) => {
                parts.len() == *size as usize && all_fit(structs, parts.as_slice(), rest, base)
            }
            None => false,
        },
        Value::Fields(parts) => { sizes.is_empty() && fields_fit(structs, parts.as_slice(), base) }
    }
}

#[cycle(fits)]
fn all_fit(structs: &[Struct], parts: &[Value], sizes: &[u32], base: Option<Base>) -> bool
    ensures { result ≡ all_fit (map (fits structs.now) parts.now) sizes.now base }
{
    for part in parts {
        if !fits(structs, part, sizes, base) {
            return false;
        }
    }
    true
}

#[cycle(fits)]
fn fields_fit(structs: &[Struct], parts: &[Value], base: Option<Base>) -> bool
    ensures { result ≡ fit_fields structs.now (map (fits structs.now) parts.now) [] base }
{
    match base {
        None => each_fits(structs, parts, &[]),
        Some(Base::Scalar(_)) => false,
        Some(Base::Struct(number)) => each_fits(structs, parts, fields_of(structs, number)),
    }
}

fn fields_of(structs: &[Struct], number: u32) -> &[Field]
    ensures { map (λ (f : FieldForm). f.shape) result.now ≡ field_shapes structs.now number }
{
    match structs.get(number as usize) {
        Some(definition) => definition.fields.as_slice(),
        None => &[],
    }
}

#[cycle(fits)]
fn each_fits(structs: &[Struct], parts: &[Value], fields: &[Field]) -> bool
    ensures { result ≡ each_fit (map (fits structs.now) parts.now) (map (λ (f : FieldForm). f.shape) fields.now) }
{
    let mut i = 0;
    'each: while i < parts.len() {
        if i >= fields.len() {
            return false;
        }
        if !fits_shape(structs, &parts[i], &fields[i].shape, &[]) {
            return false;
        }
        i += 1;
    }
    i == fields.len()
}

/// Whether a value is of a shape as a definition states it, where its open extents have these sizes.
#[cycle(fits)]
pub fn fits_shape(structs: &[Struct], value: &Value, shape: &Shape, opens: &[u32]) -> bool
    ensures { result ≡ fits structs.now value.now (sizes_of opens.now (extents shape.now)) (Some (base_of shape.now)) }
{
    match shape {
        Shape::Scalar(kind) => fits(structs, value, &[], Some(Base::Scalar(*kind))),
        Shape::Struct(number) => fits(structs, value, &[], Some(Base::Struct(*number))),
        Shape::Array(elements, extent) => match value {
            Value::List(parts) => {
                let same = parts.len() == own_size(*extent, opens);
                let rest = left(*extent, opens);
                same && all_fit_shape(structs, parts.as_slice(), elements.get(), rest)
            }
            _ => false,
        },
    }
}

#[cycle(fits)]
fn all_fit_shape(structs: &[Struct], parts: &[Value], shape: &Shape, opens: &[u32]) -> bool
    ensures { result ≡ all_fit (map (fits structs.now) parts.now) (sizes_of opens.now (extents shape.now)) (Some (base_of shape.now)) }
{
    for part in parts {
        if !fits_shape(structs, part, shape, opens) {
            return false;
        }
    }
    true
}

/// The size of an extent.
pub fn own_size(extent: Extent, opens: &[u32]) -> usize
    ensures { result ≡ size_in opens.now (own extent) }
{
    match extent {
        Extent::Stated(size) => size as usize,
        Extent::Unstated => match opens.first() {
            Some(size) => *size as usize,
            None => 0,
        },
    }
}

/// The open sizes that are left for the extents behind one.
pub fn left(extent: Extent, opens: &[u32]) -> &[u32]
    ensures { result.now ≡ left extent opens.now }
{
    match extent {
        Extent::Stated(_) => opens,
        Extent::Unstated => match opens.split_first() {
            Some((_, rest)) => rest,
            None => opens,
        },
    }
}
