//! The forms of sizes, each by its parts where these are there.

ghost use Rattle.std.specs.Prelude.{◌≡◌, true, IfOk};
ghost use Rattle.ctl_check_size.specs.Constants.{no_path, int_size, path_size, unary_form, chain_form, logic_form, path_form, path_sizing, index_form, operand_form, link_form};

use crate::sizing::Sizing;
use ctl_base::{Memory, Node, ScalarKind};
use ctl_tree::UnaryOperator;
use ctl_types::{
    Conversion, LinkOperator, Logic, Operand, Scalar, Size, TypedExpr, TypedLink, TypedStep,
};
use sqlite_items::{Boxed, Items};
use std::alloc::Global;

/// What is no path.
pub(crate) fn no_path(constant: Option<TypedExpr>) -> Sizing
    ensures { result ≡ no_path constant }
{
    Sizing {
        constant,
        is_path: false,
    }
}

/// The name of a constant or a variable.
pub(crate) fn name(constant: Option<TypedExpr>) -> Sizing
    ensures { result ≡ record { constant = constant; is_path = true } }
{
    Sizing {
        constant,
        is_path: true,
    }
}

/// The size of a path, where it is stated.
pub(crate) fn path_size(is_path: bool, size: Size) -> Option<TypedExpr>
    ensures { result ≡ path_size is_path size }
{
    if !is_path {
        return None;
    }
    match size {
        Size::Stated(n) => int_size(n),
        Size::Open(_) => None,
    }
}

// A size is an int.
fn int_size(n: u32) -> Option<TypedExpr>
    ensures { result ≡ int_size n }
{
    if n < 1 << 31 {
        Some(TypedExpr::Literal(Scalar::Int(n as i32)))
    } else {
        None
    }
}

/// An operator before its operand.
pub(crate) fn unary_form(
    alloc: Global,
    operator: UnaryOperator,
    kind: ScalarKind,
    operand: Option<Operand>,
) -> Result<Option<TypedExpr>, Memory>
    ensures { IfOk result (λ form. form ≡ unary_form operator kind operand) }
{
    let Some(operand) = operand else {
        return Ok(None);
    };
    let operand = Boxed::new(alloc, operand)?;
    Ok(Some(TypedExpr::Unary(operator, kind, operand)))
}

/// A chain of links.
pub(crate) fn chain_form(
    alloc: Global,
    first: Option<Operand>,
    links: Option<Items<TypedLink>>,
) -> Result<Option<TypedExpr>, Memory>
    ensures { IfOk result (λ form. form ≡ chain_form first links) }
{
    let Some(first) = first else {
        return Ok(None);
    };
    let Some(links) = links else {
        return Ok(None);
    };
    let first = Boxed::new(alloc, first)?;
    Ok(Some(TypedExpr::Chain(first, links)))
}

/// The operands of `&&` or `||`.
pub(crate) fn logic_form(logic: Logic, operands: Option<Items<Operand>>) -> Option<TypedExpr>
    ensures { result ≡ logic_form logic operands }
{
    match operands {
        Some(operands) => Some(TypedExpr::Logic(logic, operands)),
        None => None,
    }
}

/// Steps behind a root.
pub(crate) fn path_form(
    alloc: Global,
    root: Sizing,
    steps: Option<Items<TypedStep>>,
) -> Result<Sizing, Memory>
    ensures { IfOk result (λ s. s ≡ path_sizing root steps) }
{
    let is_path = root.is_path && steps.is_some();
    let constant = path_constant(alloc, root.constant, steps)?;
    Ok(Sizing { constant, is_path })
}

// A path of a root and steps.
fn path_constant(
    alloc: Global,
    root: Option<TypedExpr>,
    steps: Option<Items<TypedStep>>,
) -> Result<Option<TypedExpr>, Memory>
    ensures { IfOk result (λ form. form ≡ path_form root steps) }
{
    let Some(root) = root else {
        return Ok(None);
    };
    let Some(steps) = steps else {
        return Ok(None);
    };
    let root = Boxed::new(alloc, root)?;
    Ok(Some(TypedExpr::Path(root, steps)))
}

/// An index.
pub(crate) fn index_form(index: Option<TypedExpr>, node: Node) -> Option<TypedStep>
    ensures { result ≡ index_form index node }
{
    match index {
        Some(index) => Some(TypedStep::Index(index, node)),
        None => None,
    }
}

/// An operand.
pub(crate) fn operand_form(value: Option<TypedExpr>, conversion: Conversion) -> Option<Operand>
    ensures { result ≡ operand_form value conversion }
{
    match value {
        Some(value) => Some(Operand { value, conversion }),
        None => None,
    }
}

/// A link.
pub(crate) fn link_form(
    operator: LinkOperator,
    kind: ScalarKind,
    left: Conversion,
    right: Option<Operand>,
) -> Option<TypedLink>
    ensures { result ≡ link_form operator kind left right }
{
    match right {
        Some(right) => Some(TypedLink {
            operator,
            kind,
            left,
            right,
        }),
        None => None,
    }
}
