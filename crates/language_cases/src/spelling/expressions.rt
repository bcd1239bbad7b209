//! Expressions.

use crate::spelling::values::{kind_word, put_bytes};
use ctl_base::Memory;
use ctl_stdlib::name_of;
use ctl_tree::UnaryOperator;
use ctl_types::{
    Argument, Callee, Comparison, Conversion, LinkOperator, Logic, Operand, Scalar, Size,
    TypedCall, TypedExpr, TypedLink, TypedPlace, TypedStep,
};
use fix_num::WholeOp;
use std::fmt::Write;

fn unary_word(operator: UnaryOperator) -> &'static str {
    match operator {
        UnaryOperator::Minus => "minus",
        UnaryOperator::Plus => "plus",
        UnaryOperator::Not => "not",
        UnaryOperator::BitNot => "bitnot",
    }
}

fn operation_word(operation: WholeOp) -> &'static str {
    match operation {
        WholeOp::Add => "add",
        WholeOp::Sub => "subtract",
        WholeOp::Mul => "multiply",
        WholeOp::Div => "divide",
        WholeOp::Rem => "remainder",
        WholeOp::And => "bitand",
        WholeOp::Or => "bitor",
        WholeOp::Xor => "bitxor",
        WholeOp::Shl => "shiftleft",
        WholeOp::Shr => "shiftright",
    }
}

fn link_word(operator: LinkOperator) -> &'static str {
    match operator {
        LinkOperator::Arithmetic(operation) => operation_word(operation),
        LinkOperator::Compare(Comparison::Equal) => "equal",
        LinkOperator::Compare(Comparison::NotEqual) => "notequal",
        LinkOperator::Compare(Comparison::Less) => "less",
        LinkOperator::Compare(Comparison::AtMost) => "atmost",
        LinkOperator::Compare(Comparison::Greater) => "greater",
        LinkOperator::Compare(Comparison::AtLeast) => "atleast",
    }
}

fn logic_word(logic: Logic) -> &'static str {
    match logic {
        Logic::And => "and",
        Logic::Or => "or",
    }
}

fn put_scalar(out: &mut String, scalar: &Scalar) -> Result<(), Memory> {
    let value = scalar.word().raw();
    let kind = kind_word(scalar.kind());
    write!(out, "{value}:{kind}")?;
    Ok(())
}

fn put_conversion(out: &mut String, conversion: Conversion) -> Result<(), Memory> {
    match conversion {
        Conversion::Same => {}
        Conversion::Between(from, to) => {
            let from = kind_word(from);
            let to = kind_word(to);
            write!(out, " {from}>{to}")?;
        }
    }
    Ok(())
}

fn put_size(out: &mut String, size: Size) -> Result<(), Memory> {
    match size {
        Size::Stated(n) => write!(out, " size={n}")?,
        Size::Open(_) => out.push_str(" size")?,
    }
    Ok(())
}

/// An expression.
#[cycle(put_expression)]
pub(crate) fn put_expr(out: &mut String, form: &TypedExpr) -> Result<(), Memory> {
    match form {
        TypedExpr::Literal(scalar) => put_scalar(out, scalar),
        TypedExpr::Constant(n) => Ok(write!(out, "c{n}")?),
        TypedExpr::Variable(n) => Ok(write!(out, "v{n}")?),
        TypedExpr::Unary(operator, kind, operand) => {
            put_operand(out, operand.get())?;
            let word = unary_word(*operator);
            let kind = kind_word(*kind);
            Ok(write!(out, " {word}.{kind}")?)
        }
        TypedExpr::Chain(first, links) => {
            put_operand(out, first.get())?;
            put_links(out, links.as_slice())
        }
        TypedExpr::Logic(logic, operands) => put_operands(out, operands.as_slice(), *logic),
        TypedExpr::Path(root, steps) => {
            put_expr(out, root.get())?;
            put_steps(out, steps.as_slice())
        }
        TypedExpr::Size(array, size) => {
            put_expr(out, array.get())?;
            put_size(out, *size)
        }
        TypedExpr::Call(call) => put_call(out, call.get()),
    }
}

/// An expression, and what is done to its value.
#[cycle(put_expression)]
pub(crate) fn put_operand(out: &mut String, operand: &Operand) -> Result<(), Memory> {
    put_expr(out, &operand.value)?;
    put_conversion(out, operand.conversion)
}

#[cycle(put_expression)]
fn put_links(out: &mut String, links: &[TypedLink]) -> Result<(), Memory> {
    for link in links {
        put_link(out, link)?;
    }
    Ok(())
}

#[cycle(put_expression)]
fn put_link(out: &mut String, link: &TypedLink) -> Result<(), Memory> {
    put_conversion(out, link.left)?;
    out.push_str(" ")?;
    put_operand(out, &link.right)?;
    let word = link_word(link.operator);
    let kind = kind_word(link.kind);
    write!(out, " {word}.{kind}")?;
    Ok(())
}

#[cycle(put_expression)]
fn put_operands(out: &mut String, operands: &[Operand], logic: Logic) -> Result<(), Memory> {
    for operand in operands {
        put_operand(out, operand)?;
        out.push_str(" ")?;
    }
    out.push_str(logic_word(logic))?;
    Ok(())
}

#[cycle(put_expression)]
fn put_steps(out: &mut String, steps: &[TypedStep]) -> Result<(), Memory> {
    for step in steps {
        put_step(out, step)?;
    }
    Ok(())
}

#[cycle(put_expression)]
fn put_step(out: &mut String, step: &TypedStep) -> Result<(), Memory> {
    match step {
        TypedStep::Index(index, node) => {
            out.push_str(" ")?;
            put_expr(out, index)?;
            let token = node.token;
            write!(out, " []@{token}")?;
        }
        TypedStep::Field(n) => write!(out, " .{n}")?,
    }
    Ok(())
}

/// A variable and the steps into it.
#[cycle(put_expression)]
pub(crate) fn put_place(out: &mut String, place: &TypedPlace) -> Result<(), Memory> {
    let x = place.variable;
    write!(out, "v{x}")?;
    put_steps(out, place.steps.as_slice())
}

/// A call, its arguments in front.
#[cycle(put_expression)]
pub(crate) fn put_call(out: &mut String, call: &TypedCall) -> Result<(), Memory> {
    put_arguments(out, call.arguments.as_slice())?;
    let token = call.node.token;
    match call.callee {
        Callee::Program(k) => write!(out, "f{k}")?,
        Callee::Library(id) => put_bytes(out, name_of(id))?,
    }
    let count = call.arguments.len();
    Ok(write!(out, "/{count}@{token}")?)
}

#[cycle(put_expression)]
fn put_arguments(out: &mut String, arguments: &[Argument]) -> Result<(), Memory> {
    for argument in arguments {
        put_argument(out, argument)?;
        out.push_str(" ")?;
    }
    Ok(())
}

#[cycle(put_expression)]
fn put_argument(out: &mut String, argument: &Argument) -> Result<(), Memory> {
    match argument {
        Argument::Input(operand, _) => put_operand(out, operand),
        Argument::Output(place, conversion, _) => {
            out.push_str("&")?;
            put_place(out, place)?;
            put_conversion(out, *conversion)
        }
        Argument::Missing => Ok(out.push_str("default")?),
    }
}
