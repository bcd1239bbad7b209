//! Letters for what is told of tokens in a text.

use crate::reading::{read, tokens_of};
use ctl_base::Memory;
use ctl_parser::SyntaxFault;
use ctl_tree::{SyntaxKind, Token};
use std::alloc::Global;

/// A letter for each token: `m` where a module stands in front of it, `h` where that has its fault at its end.
pub fn of_cuts(alloc: Global, text: &[u8]) -> Result<String, Memory> {
    let tokens = tokens_of(alloc, text)?;
    let mut letters = String::new(alloc);
    for (token, place) in tokens.as_slice().iter().zip(0..u32::MAX) {
        letters.push_str(cut_letter(alloc, text, token, place)?)?;
    }
    Ok(letters)
}

fn cut_letter(
    alloc: Global,
    text: &[u8],
    token: &Token,
    place: u32,
) -> Result<&'static str, Memory> {
    let Some(front) = text.get(..token.at as usize) else {
        return Err(Memory);
    };
    match read(alloc, front) {
        Ok(_) => Ok("m"),
        Err(
            SyntaxFault::At {
                at,
                line,
                kind: SyntaxKind::NotHere,
            },
        ) if at == place && line == token.line => Ok("h"),
        Err(SyntaxFault::At { .. }) => Ok("?"),
        Err(SyntaxFault::Memory) => Err(Memory),
    }
}

/// A letter for each of these tokens behind a text: `m` where there is a module with it, `g` where a module can go on behind
/// it, `h` where it is the fault, and `d` where it is too deep.
pub fn of_samples(alloc: Global, text: &[u8], samples: &str) -> Result<String, Memory> {
    let count = tokens_of(alloc, text)?.as_slice().len() as u64;
    let mut letters = String::new(alloc);
    for sample in samples.split(' ') {
        letters.push_str(sample_letter(alloc, text, count, sample)?)?;
    }
    Ok(letters)
}

fn sample_letter(
    alloc: Global,
    front: &[u8],
    count: u64,
    sample: &str,
) -> Result<&'static str, Memory> {
    let mut text = Vec::from_slice(alloc, front)?;
    text.push(b' ')?;
    text.extend_from_slice(sample.as_bytes())?;
    match read(alloc, text.as_slice()) {
        Ok(_) => Ok("m"),
        Err(SyntaxFault::At { at, kind, .. }) => Ok(fault_letter(at as u64, kind, count)),
        Err(SyntaxFault::Memory) => Err(Memory),
    }
}

fn fault_letter(at: u64, kind: SyntaxKind, count: u64) -> &'static str {
    match kind {
        SyntaxKind::Depth if at == count => "d",
        SyntaxKind::NotHere if at == count => "h",
        SyntaxKind::NotHere if at == count.wrapping_add(1) => "g",
        _ => "?",
    }
}
