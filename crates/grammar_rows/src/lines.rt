//! Texts as they stand in lines.
//!
//! A `\` and two hexadecimal digits stand for a byte. Between three `$` stand a number and a text that is repeated so often.

use ctl_base::Memory;
use std::alloc::Global;

/// The text of a line.
pub fn text_of(alloc: Global, line: &str) -> Result<Vec<u8>, Memory> {
    let mut out = Vec::new(alloc);
    let mut times = 0u32;
    for (part, place) in line.split('$').zip(0..u32::MAX) {
        match place % 3 {
            0 => put_part(&mut out, part)?,
            1 => times = part.parse::<u32>().unwrap_or(0),
            _ => put_often(&mut out, part, times)?,
        }
    }
    Ok(out)
}

fn put_often(out: &mut Vec<u8>, part: &str, times: u32) -> Result<(), Memory> {
    for _ in 0..times {
        put_part(out, part)?;
    }
    Ok(())
}

// Puts the bytes of a part, where a byte may stand as two digits.
fn put_part(out: &mut Vec<u8>, part: &str) -> Result<(), Memory> {
    for (piece, place) in part.split('\\').zip(0..u32::MAX) {
        if place == 0 {
            out.extend_from_slice(piece.as_bytes())?;
        } else {
            put_digits(out, piece.as_bytes())?;
        }
    }
    Ok(())
}

// Puts the byte of two digits, and what stands behind them.
fn put_digits(out: &mut Vec<u8>, piece: &[u8]) -> Result<(), Memory> {
    let (Some(high), Some(low), Some(rest)) = (piece.first(), piece.get(1), piece.get(2..)) else {
        return Err(Memory);
    };
    out.push(digit(*high).wrapping_mul(16).wrapping_add(digit(*low)))?;
    out.extend_from_slice(rest)?;
    Ok(())
}

fn digit(byte: u8) -> u8 {
    match byte {
        b'0'..=b'9' => byte.wrapping_sub(b'0'),
        b'a'..=b'f' => byte.wrapping_sub(b'a').wrapping_add(10),
        _ => 0,
    }
}
