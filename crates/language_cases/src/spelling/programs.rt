//! Functions and programs.

use crate::spelling::statements::put_statement;
use crate::spelling::values::{put_bytes, put_shape, put_words};
use ctl_base::{Memory, Node};
use ctl_program::Program;
use ctl_tree::Level;
use ctl_types::{Constant, Function, Parameter, Struct};
use std::fmt::Write;

fn put_level(out: &mut String, level: Option<Level>) -> Result<(), Memory> {
    match level {
        Some(Level::Uniform) => Ok(out.push_str("uniform ")?),
        Some(Level::Varying) => Ok(out.push_str("varying ")?),
        None => Ok(()),
    }
}

fn put_parameter(out: &mut String, parameter: &Parameter) -> Result<(), Memory> {
    if parameter.is_output {
        out.push_str("output ")?;
    }
    put_level(out, parameter.level)?;
    put_shape(out, &parameter.shape)?;
    out.push_str(" ")?;
    put_bytes(out, parameter.name.as_slice())?;
    if let Some(default) = &parameter.default {
        out.push_str(" =")?;
        put_words(out, default)?;
    }
    Ok(())
}

fn put_head(out: &mut String, function: &Function) -> Result<(), Memory> {
    match &function.result {
        Some(shape) => put_shape(out, shape)?,
        None => out.push_str("void")?,
    }
    out.push_str(" ")?;
    put_bytes(out, function.name.as_slice())?;
    let Node { module, token } = function.node;
    Ok(write!(out, "@{module}.{token} (")?)
}

/// A function, with the number of variables that its body declares.
pub(crate) fn put_function(out: &mut String, function: &Function) -> Result<(), Memory> {
    put_head(out, function)?;
    for parameter in function.parameters.as_slice() {
        put_parameter(out, parameter)?;
        out.push_str(";")?;
    }
    let variables = function.variables;
    write!(out, ") {variables} ")?;
    put_statement(out, &function.body)
}

fn put_struct(out: &mut String, definition: &Struct) -> Result<(), Memory> {
    out.push_str("struct")?;
    for field in definition.fields.as_slice() {
        out.push_str(" ")?;
        put_shape(out, &field.shape)?;
        out.push_str(" ")?;
        put_bytes(out, field.name.as_slice())?;
        out.push_str(";")?;
    }
    Ok(())
}

fn put_constant(out: &mut String, constant: &Constant) -> Result<(), Memory> {
    put_shape(out, &constant.shape)?;
    out.push_str(" =")?;
    put_words(out, &constant.value)
}

/// The definitions of a program behind those of the library, and the number of its entry.
pub(crate) fn put_program(out: &mut String, program: &Program) -> Result<(), Memory> {
    match program.entry() {
        Some(number) => write!(out, "entry {number}")?,
        None => out.push_str("no entry")?,
    }
    for definition in program.structs().iter().skip(1) {
        out.push_str(" | ")?;
        put_struct(out, definition)?;
    }
    for constant in program.constants().iter().skip(7) {
        out.push_str(" | ")?;
        put_constant(out, constant)?;
    }
    for function in program.functions() {
        out.push_str(" | ")?;
        put_function(out, function)?;
    }
    Ok(())
}
