//! The rules of brace lists.

ghost use Rattle.std.specs.Prelude.{◌≡◌, [], ◌∷◌, ◌++◌, max, length, Some, None, Ok, IfOk};
ghost use Rattle.std.specs.Option.{option_copied};
ghost use Rattle.ctl_types.specs.declared.shape.Size.TheVariants.{Stated};
ghost use Rattle.ctl_types.specs.Typing.{are_stated};
ghost use Rattle.ctl_check_rules.specs.Faults.{Gives, rule_at};
ghost use Rattle.ctl_check_rules.specs.Operators.{short};
ghost use Rattle.ctl_check_rules.specs.Shapes.{stated_sizes};
ghost use Rattle.ctl_check_init.specs.Initialisers.{value_begun, value_by, as_part, no_parts, with_part, extent_of, base_shape, sized, given_by, with_element, no_elements, element_shape, count_fits, array_begun, array_rule, shapes_of, struct_begun, struct_rule};

use crate::begun::{Begun, Elements, Parts};
use ctl_base::Memory;
use ctl_check_rules::{Checked, ExprFault, broken, fitting, operand, stated_sizes};
use ctl_scope::CheckKind;
use ctl_types::{Base, Conversion, Extent, Field, Initialiser, Shape, Size, SizeList};
use sqlite_items::{Boxed, Items};
use std::alloc::Global;

/// An expression where this is wanted, and none where it doesn't fit.
pub(crate) fn value_begun(wanted: Option<&Shape>, checked: Checked) -> Option<Begun>
    ensures { result ≡ value_begun (option_copied wanted.entry) checked }
{
    match wanted {
        Some(shape) => value_by(
            fitting(shape, checked.sizes.as_slice(), checked.base),
            checked,
        ),
        None => None,
    }
}

// A value with what is done to it.
fn value_by(conversion: Option<Conversion>, checked: Checked) -> Option<Begun>
    ensures { result ≡ value_by checked conversion }
{
    match conversion {
        Some(conversion) => Some(Begun {
            form: Initialiser::Value(operand(checked.form, conversion)),
            sizes: checked.sizes,
            depth: checked.depth,
        }),
        None => None,
    }
}

/// Whether no size is open.
pub(crate) fn are_stated(sizes: &[Size]) -> bool
    ensures { result ≡ are_stated sizes.now }
{
    for size in sizes {
        match size {
            Size::Stated(_) => {}
            Size::Open(_) => return false,
        }
    }
    true
}

/// A part of a list, which an array of open size is not.
pub(crate) fn as_part(begun: Option<Begun>) -> Option<Begun>
    ensures { result ≡ as_part begun }
{
    match begun {
        Some(part) => stated_part(part),
        None => None,
    }
}

// A part of a list, where no size of it is open.
fn stated_part(part: Begun) -> Option<Begun>
    ensures { result ≡ as_part (Some part) }
{
    if are_stated(part.sizes.as_slice()) {
        Some(part)
    } else {
        None
    }
}

/// No parts yet.
pub(crate) fn no_parts(alloc: Global) -> Parts
    ensures { result ≡ no_parts }
{
    Parts {
        forms: Items::new(alloc),
        fit: true,
        depth: 0,
    }
}

/// No elements yet.
pub(crate) fn no_elements(alloc: Global) -> Elements
    ensures { result ≡ no_elements }
{
    Elements {
        parts: no_parts(alloc),
        given: None,
    }
}

/// The parts so far with one more.
pub(crate) fn with_part(before: Parts, part: Option<Begun>) -> Result<Parts, ExprFault>
    ensures { Gives result (Ok (with_part before part)) }
{
    match part {
        Some(begun) => with_form(before, begun.form, begun.depth),
        None => Ok(Parts {
            forms: before.forms,
            fit: false,
            depth: before.depth,
        }),
    }
}

// The parts so far with the form of one more.
fn with_form(before: Parts, form: Initialiser, depth: u32) -> Result<Parts, ExprFault>
    ensures { Gives result (Ok (record { forms = before.forms ++ form ∷ []; fit = before.fit; depth = max before.depth depth })) }
{
    let mut forms = before.forms;
    forms.push(form)?;
    Ok(Parts {
        forms,
        fit: before.fit,
        depth: before.depth.max(depth),
    })
}

// ---- lists that give an array

// A stated size as an extent.
fn extent_of(size: Size) -> Extent
    ensures { result ≡ extent_of size }
{
    match size {
        Size::Stated(n) => Extent::Stated(n),
        Size::Open(_) => Extent::Unstated,
    }
}

// What arrays hold in the end, as a shape.
fn base_shape(base: Base) -> Shape
    ensures { result ≡ base_shape base }
{
    match base {
        Base::Scalar(kind) => Shape::Scalar(kind),
        Base::Struct(n) => Shape::Struct(n),
    }
}

/// The shape of these sizes. A size that is open leaves its extent open.
pub fn sized(alloc: Global, sizes: &[Size], base: Base) -> Result<Shape, Memory>
    ensures { IfOk result (λ shape. shape ≡ sized sizes.now base) }
{
    match sizes.split_first() {
        Some((size, inner)) => {
            let elements = sized(alloc, inner, base)?;
            Ok(Shape::Array(Boxed::new(alloc, elements)?, extent_of(*size)))
        }
        None => Ok(base_shape(base)),
    }
}

/// The shape that is wanted of an element.
pub(crate) fn element_shape<'a>(inner: &'a Shape, given: Option<&'a Shape>) -> &'a Shape
    ensures { result.now ≡ element_shape inner.now (option_copied given.entry) }
{
    match given {
        Some(shape) => shape,
        None => inner,
    }
}

// The shape that the first element that fits gives to all.
fn given_by(
    alloc: Global,
    base: Base,
    given: Option<Shape>,
    element: Option<&Begun>,
) -> Result<Option<Shape>, ExprFault>
    ensures { Gives result (Ok (given_by base given (option_copied element.entry))) }
{
    match given {
        Some(shape) => Ok(Some(shape)),
        None => first_given(alloc, base, element),
    }
}

// The shape that an element gives before which none fits.
fn first_given(
    alloc: Global,
    base: Base,
    element: Option<&Begun>,
) -> Result<Option<Shape>, ExprFault>
    ensures { Gives result (Ok (given_by base None (option_copied element.entry))) }
{
    match element {
        Some(begun) => Ok(Some(sized(alloc, begun.sizes.as_slice(), base)?)),
        None => Ok(None),
    }
}

/// The elements so far with one more.
pub(crate) fn with_element(
    alloc: Global,
    base: Base,
    before: Elements,
    element: Option<Begun>,
) -> Result<Elements, ExprFault>
    ensures { Gives result (Ok (with_element base before element)) }
{
    let Elements { parts, given } = before;
    let given = given_by(alloc, base, given, element.as_ref())?;
    with_given(parts, element, given)
}

// The elements so far with one more, and what is given behind it.
fn with_given(
    parts: Parts,
    element: Option<Begun>,
    given: Option<Shape>,
) -> Result<Elements, ExprFault>
    ensures { Gives result (Ok (record { parts = with_part parts element; given = given })) }
{
    let parts = with_part(parts, element)?;
    Ok(Elements { parts, given })
}

// Whether there are as many elements as are wanted.
fn count_fits(extent: Extent, count: usize) -> bool
    ensures { result ≡ count_fits extent count }
{
    match extent {
        Extent::Stated(n) => count == n as usize,
        Extent::Unstated => true,
    }
}

// A number of elements as it is kept.
fn short(count: usize) -> u32
    ensures { result ≡ short count }
{
    if count <= u32::MAX as usize {
        count as u32
    } else {
        u32::MAX
    }
}

// An array of elements of a shape.
fn array_begun(alloc: Global, shape: Shape, parts: Parts) -> Result<Option<Begun>, ExprFault>
    ensures { Gives result (Ok (Some (array_begun shape parts))) }
{
    let sizes = array_sizes(alloc, parts.forms.len(), &shape)?;
    Ok(Some(Begun {
        form: Initialiser::Elements(shape, parts.forms),
        sizes,
        depth: parts.depth,
    }))
}

// The sizes of an array of so many elements of a shape.
fn array_sizes(alloc: Global, count: usize, shape: &Shape) -> Result<SizeList, ExprFault>
    ensures { Gives result (Ok (Stated (short count) ∷ stated_sizes shape.now)) }
{
    let inner = stated_sizes(alloc, shape)?;
    let sizes = behind_size(alloc, Size::Stated(short(count)), inner.as_slice())?;
    Ok(sizes)
}

// Sizes behind a first one.
fn behind_size(alloc: Global, first: Size, inner: &[Size]) -> Result<SizeList, Memory>
    ensures { IfOk result (λ sizes. sizes ≡ first ∷ inner.now) }
{
    let mut sizes = SizeList::new(alloc);
    sizes.push(first)?;
    for size in inner {
        sizes.push(*size)?;
    }
    Ok(sizes)
}

/// The rule of a list that gives an array, after its elements.
pub(crate) fn check_array(
    alloc: Global,
    unit: u32,
    token: u32,
    extent: Extent,
    count: usize,
    after: Elements,
) -> Result<Option<Begun>, ExprFault>
    ensures { Gives result (rule_at unit token (array_rule extent count after.parts after.given)) }
{
    let Elements { parts, given } = after;
    let Some(shape) = given else {
        return Err(broken(unit, token, CheckKind::Mismatch));
    };
    if !parts.fit || !count_fits(extent, count) {
        return Err(broken(unit, token, CheckKind::Mismatch));
    }
    array_begun(alloc, shape, parts)
}

// ---- lists that give a struct

// A struct of fields.
fn struct_begun(alloc: Global, n: u32, parts: Parts) -> Begun
    ensures { result ≡ struct_begun n parts }
{
    Begun {
        form: Initialiser::Fields(n, parts.forms),
        sizes: SizeList::new(alloc),
        depth: parts.depth,
    }
}

/// The rule of a list that gives a struct, after its fields.
pub(crate) fn check_struct(
    alloc: Global,
    unit: u32,
    token: u32,
    n: u32,
    fields: &[Field],
    count: usize,
    parts: Parts,
) -> Result<Option<Begun>, ExprFault>
    ensures { Gives result (rule_at unit token (struct_rule n (length (shapes_of fields.now)) count parts)) }
{
    if !parts.fit || count != fields.len() {
        return Err(broken(unit, token, CheckKind::Mismatch));
    }
    Ok(Some(struct_begun(alloc, n, parts)))
}
