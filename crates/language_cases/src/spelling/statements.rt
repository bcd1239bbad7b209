//! Statements.

use crate::spelling::expressions::{put_call, put_expr, put_operand, put_place};
use crate::spelling::values::{put_bytes, put_local};
use ctl_base::Memory;
use ctl_types::{
    Arm, Assignment, Declaration, ForStart, Initialiser, Operand, PrintItem, TypedStatement,
};
use sqlite_items::Boxed;
use std::fmt::Write;

#[cycle(put_initialiser)]
fn put_initialiser(out: &mut String, initialiser: &Initialiser) -> Result<(), Memory> {
    match initialiser {
        Initialiser::Value(operand) => put_operand(out, operand),
        Initialiser::Elements(_, parts) => put_list(out, parts.as_slice()),
        Initialiser::Fields(_, parts) => put_list(out, parts.as_slice()),
    }
}

#[cycle(put_initialiser)]
fn put_list(out: &mut String, parts: &[Initialiser]) -> Result<(), Memory> {
    out.push_str("{ ")?;
    for part in parts {
        put_initialiser(out, part)?;
        out.push_str(" ")?;
    }
    Ok(out.push_str("}")?)
}

fn put_declaration(out: &mut String, declaration: &Declaration) -> Result<(), Memory> {
    put_local(out, &declaration.shape)?;
    let variable = declaration.variable;
    write!(out, " v{variable}")?;
    if let Some(first) = &declaration.first {
        out.push_str(" = ")?;
        put_initialiser(out, first)?;
    }
    Ok(out.push_str(";")?)
}

fn put_assignment(out: &mut String, assignment: &Assignment) -> Result<(), Memory> {
    put_place(out, &assignment.place)?;
    out.push_str(" = ")?;
    put_operand(out, &assignment.value)?;
    Ok(out.push_str(";")?)
}

fn put_start(out: &mut String, start: &ForStart) -> Result<(), Memory> {
    match start {
        ForStart::Declare(declaration) => put_declaration(out, declaration),
        ForStart::Assign(assignment) => put_assignment(out, assignment),
    }
}

fn put_return(out: &mut String, value: Option<&Boxed<Operand>>) -> Result<(), Memory> {
    out.push_str("return")?;
    if let Some(value) = value {
        out.push_str(" ")?;
        put_operand(out, value.get())?;
    }
    Ok(out.push_str(";")?)
}

fn put_items(out: &mut String, items: &[PrintItem]) -> Result<(), Memory> {
    out.push_str("print")?;
    for item in items {
        out.push_str(" ")?;
        match item {
            PrintItem::Text(text) => {
                out.push_str("\"")?;
                put_bytes(out, text.as_slice())?;
                out.push_str("\"")?;
            }
            PrintItem::Value(value) => put_expr(out, value)?,
        }
    }
    Ok(out.push_str(";")?)
}

fn put_test(out: &mut String, test: &Operand) -> Result<(), Memory> {
    put_operand(out, test)?;
    Ok(out.push_str(" ")?)
}

/// A statement.
#[cycle(put_statement)]
pub(crate) fn put_statement(out: &mut String, statement: &TypedStatement) -> Result<(), Memory> {
    match statement {
        TypedStatement::Empty => Ok(out.push_str("{ }")?),
        TypedStatement::Block(parts) => put_block(out, parts.as_slice()),
        TypedStatement::Declare(declaration) => put_declaration(out, declaration.get()),
        TypedStatement::Assign(assignment) => put_assignment(out, assignment.get()),
        TypedStatement::Call(call) => {
            put_call(out, call.get())?;
            Ok(out.push_str(";")?)
        }
        TypedStatement::If(arms, otherwise) => {
            put_arms(out, arms.as_slice())?;
            match otherwise {
                Some(otherwise) => put_statement(out, otherwise.get()),
                None => Ok(out.push_str("{ }")?),
            }
        }
        TypedStatement::While(test, body, node) => {
            let token = node.token;
            write!(out, "while@{token} ")?;
            put_test(out, test.get())?;
            put_statement(out, body.get())
        }
        TypedStatement::For(start, test, after, body, node) => {
            put_start(out, start.get())?;
            let token = node.token;
            write!(out, " for@{token} ")?;
            put_test(out, test.get())?;
            put_statement(out, body.get())?;
            out.push_str(" then ")?;
            put_assignment(out, after.get())
        }
        TypedStatement::Return(value) => put_return(out, value.as_ref()),
        TypedStatement::Print(items) => put_items(out, items.as_slice()),
    }
}

#[cycle(put_statement)]
fn put_block(out: &mut String, parts: &[TypedStatement]) -> Result<(), Memory> {
    out.push_str("{ ")?;
    for part in parts {
        put_statement(out, part)?;
        out.push_str(" ")?;
    }
    Ok(out.push_str("}")?)
}

#[cycle(put_statement)]
fn put_arms(out: &mut String, arms: &[Arm]) -> Result<(), Memory> {
    for arm in arms {
        put_arm(out, arm)?;
    }
    Ok(())
}

#[cycle(put_statement)]
fn put_arm(out: &mut String, arm: &Arm) -> Result<(), Memory> {
    out.push_str("if ")?;
    put_test(out, &arm.test)?;
    put_statement(out, arm.body.get())?;
    Ok(out.push_str(" else ")?)
}
