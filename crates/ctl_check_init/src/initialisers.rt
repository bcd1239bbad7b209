//! Initialisers. Of a brace list first all its parts are looked at from the left, and then its own rule.

ghost use Rattle.std.specs.Prelude.{◌≡◌, map, Some};
ghost use Rattle.std.specs.Option.{option_copied};
ghost use Rattle.ctl_tree.specs.declared.declaration.BraceList.{out-BraceList};
ghost use Rattle.ctl_types.specs.Shapes.{field_shapes, field_shapes_in};
ghost use Rattle.ctl_check_rules.specs.Faults.{Gives};
ghost use Rattle.ctl_check_expr.specs.Calls.{behind};
ghost use Rattle.ctl_check_init.specs.Initialisers.{initialised, begun, begun_list, left_over, scalar_list, element_begun, elements_begun, no_elements, array_list, shapes_of, first_of, field_begun, fields_begun, no_parts, struct_list};

use crate::begun::{Begun, Elements, Parts};
use crate::limits::check_begun;
use crate::lists::{
    as_part, check_array, check_struct, element_shape, no_elements, no_parts, value_begun,
    with_element, with_part,
};
use ctl_check_expr::check_value;
use ctl_check_rules::{ExprFault, broken};
use ctl_program::Definitions;
use ctl_scope::{CheckKind, Scope};
use ctl_tree::{BraceList, Initialiser};
use ctl_types::{Extent, Field, Shape, Struct};
use sqlite_items::at;
use std::alloc::Global;

/// The initialiser of a constant, a variable or a parameter that is declared with this shape, or its first fault. It
/// gives the sizes that the shape leaves open. Where it does not fit, or gives sizes that are too large, the fault
/// stands at the token of what is declared.
pub fn check_initialiser(
    alloc: Global,
    scope: &Scope,
    definitions: &Definitions,
    initialiser: &Initialiser,
    wanted: &Shape,
    token: u32,
) -> Result<Begun, ExprFault>
    ensures { Gives result (initialised scope.now definitions.now token wanted.now initialiser.now) }
{
    let given = begin(alloc, scope, definitions, initialiser, Some(wanted))?;
    check_begun(scope, token, wanted.base(), given)
}

/// What is made of an initialiser where a shape is wanted, and none where it does not fit; or the first fault that
/// stands in it. What is declared may have a fault of its own before `check_begun` is asked.
pub fn begin_initialiser(
    alloc: Global,
    scope: &Scope,
    definitions: &Definitions,
    initialiser: &Initialiser,
    wanted: &Shape,
) -> Result<Option<Begun>, ExprFault>
    ensures { Gives result (begun scope.now definitions.now initialiser.now (Some wanted.now)) }
{
    begin(alloc, scope, definitions, initialiser, Some(wanted))
}

// An initialiser where a shape is wanted, or nothing.
#[cycle(begin)]
fn begin(
    alloc: Global,
    scope: &Scope,
    definitions: &Definitions,
    initialiser: &Initialiser,
    wanted: Option<&Shape>,
) -> Result<Option<Begun>, ExprFault>
    ensures { Gives result (begun scope.now definitions.now initialiser.now (option_copied wanted.entry)) }
{
    match initialiser {
        Initialiser::Expr(expr) => {
            let checked = check_value(alloc, scope, definitions, expr)?;
            Ok(value_begun(wanted, checked))
        }
        Initialiser::List(list) => begin_list(alloc, scope, definitions, list, wanted),
    }
}

// A list where a shape is wanted, or nothing.
#[cycle(begin)]
fn begin_list(
    alloc: Global,
    scope: &Scope,
    definitions: &Definitions,
    list: &BraceList,
    wanted: Option<&Shape>,
) -> Result<Option<Begun>, ExprFault>
    ensures { Gives result (begun_list scope.now definitions.now list.now (option_copied wanted.entry)) }
{
    match wanted {
        Some(shape) => begin_given(alloc, scope, definitions, list, shape),
        None => begin_left_over(alloc, scope, definitions, list.elements.as_slice()),
    }
}

// A list where a shape is wanted.
#[cycle(begin)]
fn begin_given(
    alloc: Global,
    scope: &Scope,
    definitions: &Definitions,
    list: &BraceList,
    shape: &Shape,
) -> Result<Option<Begun>, ExprFault>
    ensures { Gives result (begun_list scope.now definitions.now list.now (Some shape.now)) }
{
    match shape {
        Shape::Scalar(_) => begin_scalar(alloc, scope, definitions, list),
        Shape::Struct(n) => begin_struct(alloc, scope, definitions, list, *n),
        Shape::Array(inner, extent) => begin_array(
            alloc,
            scope,
            definitions,
            list,
            inner.get(),
            *extent,
        ),
    }
}

// Parts of which nothing is wanted.
#[cycle(begin)]
fn begin_left_over(
    alloc: Global,
    scope: &Scope,
    definitions: &Definitions,
    parts: &[Initialiser],
) -> Result<Option<Begun>, ExprFault>
    ensures { Gives result (left_over (map (begun scope.now definitions.now) parts.now)) }
{
    for part in parts {
        begin(alloc, scope, definitions, part, None)?;
    }
    Ok(None)
}

// A list where a scalar is wanted.
#[cycle(begin)]
fn begin_scalar(
    alloc: Global,
    scope: &Scope,
    definitions: &Definitions,
    list: &BraceList,
) -> Result<Option<Begun>, ExprFault>
    ensures { Gives result (scalar_list scope.now.unit (out-BraceList list.now).token (map (begun scope.now definitions.now) (out-BraceList list.now).elements)) }
{
    begin_left_over(alloc, scope, definitions, list.elements.as_slice())?;
    Err(broken(scope.unit(), list.token, CheckKind::Mismatch))
}

// A list where an array is wanted.
#[cycle(begin)]
fn begin_array(
    alloc: Global,
    scope: &Scope,
    definitions: &Definitions,
    list: &BraceList,
    inner: &Shape,
    extent: Extent,
) -> Result<Option<Begun>, ExprFault>
    ensures { Gives result (array_list scope.now.unit (out-BraceList list.now).token inner.now extent (map (begun scope.now definitions.now) (out-BraceList list.now).elements)) }
{
    let parts = list.elements.as_slice();
    let after = begin_elements(alloc, scope, definitions, parts, inner)?;
    check_array(alloc, scope.unit(), list.token, extent, parts.len(), after)
}

// Elements from the left.
#[cycle(begin)]
fn begin_elements(
    alloc: Global,
    scope: &Scope,
    definitions: &Definitions,
    elements: &[Initialiser],
    inner: &Shape,
) -> Result<Elements, ExprFault>
    ensures { Gives result (elements_begun inner.now (map (begun scope.now definitions.now) elements.now) no_elements) }
{
    let mut before = no_elements(alloc);
    for element in elements {
        before = begin_element(alloc, scope, definitions, element, inner, before)?;
    }
    Ok(before)
}

#[cycle(begin)]
fn begin_element(
    alloc: Global,
    scope: &Scope,
    definitions: &Definitions,
    element: &Initialiser,
    inner: &Shape,
    before: Elements,
) -> Result<Elements, ExprFault>
    ensures { Gives result (element_begun inner.now (begun scope.now definitions.now element.now) before) }
{
    let wanted = element_shape(inner, before.given.as_ref());
    let given = begin(alloc, scope, definitions, element, Some(wanted))?;
    with_element(alloc, inner.base(), before, as_part(given))
}

// A list where a struct is wanted.
#[cycle(begin)]
fn begin_struct(
    alloc: Global,
    scope: &Scope,
    definitions: &Definitions,
    list: &BraceList,
    n: u32,
) -> Result<Option<Begun>, ExprFault>
    ensures { Gives result (struct_list scope.now.unit (out-BraceList list.now).token n (field_shapes definitions.now.structs n) (map (begun scope.now definitions.now) (out-BraceList list.now).elements)) }
{
    let found = at(definitions.structs(), n as usize);
    begin_found(alloc, scope, definitions, list, n, found)
}

// A list where a struct is wanted that may be there.
#[cycle(begin)]
fn begin_found(
    alloc: Global,
    scope: &Scope,
    definitions: &Definitions,
    list: &BraceList,
    n: u32,
    found: Option<&Struct>,
) -> Result<Option<Begun>, ExprFault>
    ensures { Gives result (struct_list scope.now.unit (out-BraceList list.now).token n (field_shapes_in (option_copied found.entry)) (map (begun scope.now definitions.now) (out-BraceList list.now).elements)) }
{
    match found {
        Some(found) => begin_among(alloc, scope, definitions, list, n, found.fields.as_slice()),
        None => begin_among(alloc, scope, definitions, list, n, &[]),
    }
}

// A list where a struct with these fields is wanted.
#[cycle(begin)]
fn begin_among(
    alloc: Global,
    scope: &Scope,
    definitions: &Definitions,
    list: &BraceList,
    n: u32,
    fields: &[Field],
) -> Result<Option<Begun>, ExprFault>
    ensures { Gives result (struct_list scope.now.unit (out-BraceList list.now).token n (shapes_of fields.now) (map (begun scope.now definitions.now) (out-BraceList list.now).elements)) }
{
    let parts = list.elements.as_slice();
    let after = begin_fields(alloc, scope, definitions, parts, fields)?;
    check_struct(
        alloc,
        scope.unit(),
        list.token,
        n,
        fields,
        parts.len(),
        after,
    )
}

// Fields from the left.
#[tactic(auto, using(crate::proofs::Behind::shapes_behind))]
#[cycle(begin)]
fn begin_fields(
    alloc: Global,
    scope: &Scope,
    definitions: &Definitions,
    parts: &[Initialiser],
    fields: &[Field],
) -> Result<Parts, ExprFault>
    ensures { Gives result (fields_begun (shapes_of fields.now) (map (begun scope.now definitions.now) parts.now) no_parts) }
{
    let mut before = no_parts(alloc);
    let mut rest = fields;
    for part in parts {
        before = begin_field(alloc, scope, definitions, part, rest, before)?;
        rest = behind(rest);
    }
    Ok(before)
}

#[cycle(begin)]
fn begin_field(
    alloc: Global,
    scope: &Scope,
    definitions: &Definitions,
    part: &Initialiser,
    fields: &[Field],
    before: Parts,
) -> Result<Parts, ExprFault>
    ensures { Gives result (field_begun (shapes_of fields.now) (begun scope.now definitions.now part.now) before) }
{
    let given = begin(alloc, scope, definitions, part, first_shape(fields))?;
    with_part(before, as_part(given))
}

// The shape of the first field.
fn first_shape(fields: &[Field]) -> Option<&Shape>
    ensures { option_copied result ≡ first_of (shapes_of fields.now) }
{
    match fields.first() {
        Some(field) => Some(&field.shape),
        None => None,
    }
}

// The fields behind the first.
fn behind(fields: &[Field]) -> &[Field]
    ensures { result.now ≡ behind fields.now }
{
    match fields.split_first() {
        Some((_, rest)) => rest,
        None => fields,
    }
}
