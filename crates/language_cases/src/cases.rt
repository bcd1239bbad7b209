//! What is told of a case.

use crate::runs::put_runs;
use crate::spelling::programs::{put_function, put_program};
use ctl_base::limits::{MODULES, TEXT_BYTES};
use ctl_base::{Memory, TextArg};
use ctl_check::{CheckFault, check};
use ctl_lexer::lex;
use ctl_parser::parse;
use ctl_program::Program;
use ctl_scope::CheckKind;
use ctl_tree::{Unit, Units, tokens_stand};
use std::alloc::Global;
use std::fmt::Write;

/// The lines of a case.
pub(crate) fn put_case(alloc: Global, out: &mut String, case: &str) -> Result<(), Memory> {
    let (texts, runs) = case.split_once('$').unwrap_or((case, ""));
    let (name, files) = texts.split_once('#').unwrap_or((texts, ""));
    write!(out, "{name} ")?;
    match units_of(alloc, files)? {
        Some(units) => put_verdict(alloc, out, name, units, runs),
        None => Ok(out.push_str("no module\n")?),
    }
}

// What the checker says, and how the runs end.
fn put_verdict(
    alloc: Global,
    out: &mut String,
    name: &str,
    units: Units,
    runs: &str,
) -> Result<(), Memory> {
    match check(alloc, units) {
        Ok(program) => {
            put_accepted(out, name, &program)?;
            put_runs(alloc, out, name, &program, runs)
        }
        Err(
            CheckFault::At {
                file,
                line,
                node,
                kind,
            },
        ) => {
            let file = file.as_str();
            let token = node.token;
            let kind = kind_word(kind);
            Ok(write!(out, "{file} {line} {token} {kind}\n")?)
        }
        Err(CheckFault::Memory) => Err(Memory),
    }
}

// The program, and of the cases of expressions the last function alone.
fn put_accepted(out: &mut String, name: &str, program: &Program) -> Result<(), Memory> {
    match program.functions().last() {
        Some(function) if name.starts_with('e') => put_function(out, function)?,
        _ => put_program(out, program)?,
    }
    Ok(out.push_str("\n")?)
}

// The units of some files in load order, and none where one of them is no module.
fn units_of(alloc: Global, files: &str) -> Result<Option<Units>, Memory> {
    let mut units = Units::new(alloc);
    for file in files.split('#') {
        if units.len() >= MODULES {
            return Ok(None);
        }
        let (name, text) = file.split_once(' ').unwrap_or((file, ""));
        match unit_of(alloc, name, text)? {
            Some(unit) => units.push(unit)?,
            None => return Ok(None),
        }
    }
    Ok(Some(units))
}

// The unit of a file, and none where it is no module.
fn unit_of(alloc: Global, name: &str, text: &str) -> Result<Option<Unit>, Memory> {
    let text = text.replace(alloc, '\\', "\n")?;
    read(alloc, TextArg::new(alloc, name)?, text.as_bytes())
}

// The unit of a text, and none where it is no module.
fn read(alloc: Global, file: TextArg, text: &[u8]) -> Result<Option<Unit>, Memory> {
    if text.len() as u64 > TEXT_BYTES {
        return Ok(None);
    }
    let Ok(tokens) = lex(alloc, text) else {
        return Ok(None);
    };
    let Ok(module) = parse(alloc, text, tokens.as_slice()) else {
        return Ok(None);
    };
    tokens_stand();
    Ok(Some(Unit::new(file, tokens, module)))
}

fn kind_word(kind: CheckKind) -> &'static str {
    match kind {
        CheckKind::UnknownName => "UnknownName",
        CheckKind::Recursion => "Recursion",
        CheckKind::Twice => "Twice",
        CheckKind::NotAType => "NotAType",
        CheckKind::NotAFunction => "NotAFunction",
        CheckKind::TooDeep => "TooDeep",
        CheckKind::Arguments => "Arguments",
        CheckKind::NotAssignable => "NotAssignable",
        CheckKind::Mismatch => "Mismatch",
        CheckKind::BadSize => "BadSize",
        CheckKind::NoReturn => "NoReturn",
        CheckKind::BadEntry => "BadEntry",
        CheckKind::ConstTrap => "ConstTrap",
    }
}
