//! What texts in quotes stand for.

ghost use Rattle.std.specs.Prelude.{◌≡◌, ◌-◌, length, take, drop, IfOk};
ghost use Rattle.ctl_tree.specs.Texts.{escaped as escaped_byte, unquoted};

use ctl_base::{ByteText, Memory};
use std::alloc::Global;

/// The bytes that a text with its quotes stands for.
pub fn text_of(alloc: Global, bytes: &[u8]) -> Result<ByteText, Memory>
    ensures { IfOk result (λ t. t ≡ unquoted bytes.now) }
{
    let inside = between_quotes(bytes);
    let mut text = Vec::new(alloc);
    let mut next = 0;
    'each: while next < inside.len() {
        let byte = inside[next];
        if byte == b'\\' && next + 1 < inside.len() {
            text.push(escaped(inside[next + 1]))?;
            next += 2;
        } else {
            text.push(byte)?;
            next += 1;
        }
    }
    Ok(ByteText::from_vec(text))
}

// The bytes without the first and the last.
fn between_quotes(bytes: &[u8]) -> &[u8]
    ensures { result.now ≡ take (length bytes.now - 2) (drop 1 bytes.now) }
{
    if bytes.len() < 2 {
        return &[];
    }
    &bytes[1..bytes.len() - 1]
}

// The byte that a backslash and a byte stand for.
fn escaped(byte: u8) -> u8
    ensures { result ≡ escaped_byte byte }
{
    match byte {
        b'n' => b'\n',
        b't' => b'\t',
        other => other,
    }
}
