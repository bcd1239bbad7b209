//! Which expressions can be the size of an array, and the expressions of constants alone that stand for them.

ghost use Rattle.std.specs.Prelude.{◌≡◌, map, IfOk};
ghost use Rattle.ctl_check_size.specs.Constants.{all_parts, no_path, chain_form, path_sizing, sizing, step_of_size, operand_of_size, link_of_size, constant_form};

use crate::forms::{
    chain_form, index_form, link_form, logic_form, name, no_path, operand_form, path_form,
    path_size, unary_form,
};
use crate::sizing::Sizing;
use ctl_base::Memory;
use ctl_types::{Operand, TypedExpr, TypedLink, TypedStep};
use sqlite_items::Items;
use std::alloc::Global;

/// An expression that can be a size, as one that names constants alone.
pub(crate) fn constant_form(alloc: Global, expr: &TypedExpr) -> Result<Option<TypedExpr>, Memory>
    ensures { IfOk result (λ form. form ≡ constant_form expr.now) }
{
    let size = sizing(alloc, expr)?;
    Ok(size.constant)
}

// An expression as a size.
#[cycle(sizing)]
fn sizing(alloc: Global, expr: &TypedExpr) -> Result<Sizing, Memory>
    ensures { IfOk result (λ s. s ≡ sizing expr.now) }
{
    match expr {
        TypedExpr::Literal(scalar) => Ok(no_path(Some(TypedExpr::Literal(*scalar)))),
        TypedExpr::Constant(n) => Ok(name(Some(TypedExpr::Constant(*n)))),
        TypedExpr::Variable(_) => Ok(name(None)),
        TypedExpr::Unary(operator, kind, operand) => {
            let operand = operand_of_size(alloc, operand.get())?;
            let form = unary_form(alloc, *operator, *kind, operand)?;
            Ok(no_path(form))
        }
        TypedExpr::Chain(first, links) => {
            let first = operand_of_size(alloc, first.get())?;
            chain_sizing(alloc, links.as_slice(), first)
        }
        TypedExpr::Logic(logic, operands) => {
            let operands = operands_of_size(alloc, operands.as_slice())?;
            Ok(no_path(logic_form(*logic, operands)))
        }
        TypedExpr::Path(root, steps) => {
            let root = sizing(alloc, root.get())?;
            path_sizing(alloc, steps.as_slice(), root)
        }
        TypedExpr::Size(array, size) => {
            let array = sizing(alloc, array.get())?;
            Ok(no_path(path_size(array.is_path, *size)))
        }
        TypedExpr::Call(_) => Ok(no_path(None)),
    }
}

// The links of a chain behind its first operand.
#[cycle(sizing)]
fn chain_sizing(
    alloc: Global,
    links: &[TypedLink],
    first: Option<Operand>,
) -> Result<Sizing, Memory>
    ensures { IfOk result (λ s. s ≡ no_path (chain_form first (all_parts (map link_of_size links.now)))) }
{
    let links = links_of_size(alloc, links)?;
    let form = chain_form(alloc, first, links)?;
    Ok(no_path(form))
}

// The steps of a path behind its root.
#[cycle(sizing)]
fn path_sizing(alloc: Global, steps: &[TypedStep], root: Sizing) -> Result<Sizing, Memory>
    ensures { IfOk result (λ s. s ≡ path_sizing root (all_parts (map step_of_size steps.now))) }
{
    let steps = steps_of_size(alloc, steps)?;
    path_form(alloc, root, steps)
}

// Operands, where each can be a part of a size.
#[tactic(auto, using(crate::proofs::Lists::nothing_before, crate::proofs::Lists::one_more))]
#[cycle(sizing)]
fn operands_of_size(alloc: Global, operands: &[Operand]) -> Result<Option<Items<Operand>>, Memory>
    ensures { IfOk result (λ forms. forms ≡ all_parts (map operand_of_size operands.now)) }
{
    let mut forms = Items::new(alloc);
    for operand in operands {
        let Some(form) = operand_of_size(alloc, operand)? else {
            return Ok(None);
        };
        forms.push(form)?;
    }
    Ok(Some(forms))
}

#[cycle(sizing)]
fn operand_of_size(alloc: Global, operand: &Operand) -> Result<Option<Operand>, Memory>
    ensures { IfOk result (λ form. form ≡ operand_of_size operand.now) }
{
    let value = sizing(alloc, &operand.value)?;
    Ok(operand_form(value.constant, operand.conversion))
}

// Links, where each can be a part of a size.
#[tactic(auto, using(crate::proofs::Lists::nothing_before, crate::proofs::Lists::one_more))]
#[cycle(sizing)]
fn links_of_size(alloc: Global, links: &[TypedLink]) -> Result<Option<Items<TypedLink>>, Memory>
    ensures { IfOk result (λ forms. forms ≡ all_parts (map link_of_size links.now)) }
{
    let mut forms = Items::new(alloc);
    for link in links {
        let Some(form) = link_of_size(alloc, link)? else {
            return Ok(None);
        };
        forms.push(form)?;
    }
    Ok(Some(forms))
}

#[cycle(sizing)]
fn link_of_size(alloc: Global, link: &TypedLink) -> Result<Option<TypedLink>, Memory>
    ensures { IfOk result (λ form. form ≡ link_of_size link.now) }
{
    let right = operand_of_size(alloc, &link.right)?;
    Ok(link_form(link.operator, link.kind, link.left, right))
}

// Steps, where each can be a part of a size.
#[tactic(auto, using(crate::proofs::Lists::nothing_before, crate::proofs::Lists::one_more))]
#[cycle(sizing)]
fn steps_of_size(alloc: Global, steps: &[TypedStep]) -> Result<Option<Items<TypedStep>>, Memory>
    ensures { IfOk result (λ forms. forms ≡ all_parts (map step_of_size steps.now)) }
{
    let mut forms = Items::new(alloc);
    for step in steps {
        let Some(form) = step_of_size(alloc, step)? else {
            return Ok(None);
        };
        forms.push(form)?;
    }
    Ok(Some(forms))
}

#[cycle(sizing)]
fn step_of_size(alloc: Global, step: &TypedStep) -> Result<Option<TypedStep>, Memory>
    ensures { IfOk result (λ form. form ≡ step_of_size step.now) }
{
    match step {
        TypedStep::Index(index, node) => {
            let index = sizing(alloc, index)?;
            Ok(index_form(index.constant, *node))
        }
        TypedStep::Field(n) => Ok(Some(TypedStep::Field(*n))),
    }
}
