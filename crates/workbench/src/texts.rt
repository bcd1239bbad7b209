//! The tokens of a text, and its module.

use anyhow::{Result, bail};
use ctl_lexer::{LexFault, lex};
use ctl_parser::{SyntaxFault, parse};
use ctl_tree::{Token, TokenKind};
use std::alloc::Global;

/// The most bytes of a text.
const MOST_BYTES: usize = 1 << 24;

/// Cuts the text into tokens, so many times. Each time adds a checksum of the tokens, or the place of the fault,
/// counted from 1.
pub(crate) fn tokens(alloc: Global, text: &[u8], times: u32) -> Result<u64> {
    if MOST_BYTES < text.len() {
        bail!("the text is too long");
    }
    let mut sum = 0u64;
    for _ in 0..times {
        match lex(alloc, text) {
            Ok(tokens) => sum = sum.wrapping_add(checksum(tokens.as_slice())),
            Err(LexFault::At { at, .. }) => sum = sum.wrapping_add(1 + u64::from(at)),
            Err(LexFault::Memory) => bail!("out of memory"),
        }
    }
    Ok(sum)
}

/// Cuts the text into tokens and reads these as a module, so many times. Each time adds the number of its definitions,
/// or the place of the token at which it is refused, counted from 1.
pub(crate) fn modules(alloc: Global, text: &[u8], times: u32) -> Result<u64> {
    if MOST_BYTES < text.len() {
        bail!("the text is too long");
    }
    let mut sum = 0u64;
    for _ in 0..times {
        let Ok(tokens) = lex(alloc, text) else {
            bail!("no tokens, or out of memory");
        };
        match parse(alloc, text, tokens.as_slice()) {
            Ok(module) => sum = sum.wrapping_add(module.definitions.len() as u64),
            Err(SyntaxFault::At { at, .. }) => sum = sum.wrapping_add(1 + u64::from(at)),
            Err(SyntaxFault::Memory) => bail!("out of memory"),
        }
    }
    Ok(sum)
}

/// The number of tokens of the text, times the number of times.
pub(crate) fn count(alloc: Global, text: &[u8], times: u32) -> Result<u64> {
    if MOST_BYTES < text.len() {
        bail!("the text is too long");
    }
    match lex(alloc, text) {
        Ok(tokens) => Ok((tokens.as_slice().len() as u64).wrapping_mul(u64::from(times))),
        Err(_) => bail!("no tokens, or out of memory"),
    }
}

fn checksum(tokens: &[Token]) -> u64 {
    let mut sum = 0u64;
    for token in tokens {
        for n in [
            kind_number(&token.kind),
            u64::from(token.at),
            u64::from(token.len),
            u64::from(token.line),
        ] {
            sum = sum.wrapping_mul(31).wrapping_add(n);
        }
    }
    sum
}

// A number for the kind, which holds the value of a number and tells each keyword and sign.
fn kind_number(kind: &TokenKind) -> u64 {
    match kind {
        TokenKind::Word(keyword) => 0x100 + *keyword as u64,
        TokenKind::Name => 1,
        TokenKind::Whole(n) => 0x1000 + u64::from(*n),
        TokenKind::Point(value) => value.raw().cast_unsigned().wrapping_add(2),
        TokenKind::HalfPoint(value) => value.raw().cast_unsigned().wrapping_add(3),
        TokenKind::Text => 4,
        TokenKind::Sign(sign) => 0x200 + *sign as u64,
    }
}
