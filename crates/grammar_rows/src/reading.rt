//! Texts read as modules, and what is told of them.

use crate::spelling::spelling;
use ctl_base::Memory;
use ctl_lexer::lex;
use ctl_parser::{SyntaxFault, parse};
use ctl_tree::{Module, SyntaxKind, TokenList};
use std::alloc::Global;

/// The tokens of a text.
pub fn tokens_of(alloc: Global, text: &[u8]) -> Result<TokenList, Memory> {
    if text.len() > 1 << 24 {
        return Err(Memory);
    }
    match lex(alloc, text) {
        Ok(tokens) => Ok(tokens),
        Err(_) => Err(Memory),
    }
}

/// The module that a text spells.
pub fn read(alloc: Global, text: &[u8]) -> Result<Module, SyntaxFault> {
    if text.len() > 1 << 24 {
        return Err(SyntaxFault::Memory);
    }
    match lex(alloc, text) {
        Ok(tokens) => parse(alloc, text, tokens.as_slice()),
        Err(_) => Err(SyntaxFault::Memory),
    }
}

/// The spelling of the module of a text, or its fault in words.
pub fn told(alloc: Global, text: &[u8]) -> Result<String, Memory> {
    match read(alloc, text) {
        Ok(module) => spelling(alloc, &module),
        Err(SyntaxFault::Memory) => Err(Memory),
        Err(SyntaxFault::At { at, line, kind }) => fault(alloc, kind, at, line),
    }
}

/// A fault in words.
fn fault(alloc: Global, kind: SyntaxKind, at: u32, line: u32) -> Result<String, Memory> {
    let kind = match kind {
        SyntaxKind::NotHere => "not here",
        SyntaxKind::Depth => "too deep",
    };
    Ok(format!(in alloc; "{kind}: token {at}, line {line}")?)
}

/// Whether a text is a module, or its fault in words.
pub fn told_in_short(alloc: Global, text: &[u8]) -> Result<String, Memory> {
    match read(alloc, text) {
        Ok(_) => Ok(String::from_str(alloc, "module")?),
        Err(SyntaxFault::Memory) => Err(Memory),
        Err(SyntaxFault::At { at, line, kind }) => fault(alloc, kind, at, line),
    }
}
