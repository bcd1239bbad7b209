//! Number spellings.

ghost use Rattle.std.specs.Prelude.{◌≡◌, ◌<◌, ◌≤◌, ℕ, length, slice_index, true, false, MatchOption};
ghost use Rattle.std.specs.List.{list_any};
ghost use Rattle.ctl_tree.specs.TokenBytes.{begins_number, in_number, goes_on_at, ends_with, without_f, IsNumberSpelling, IsPoint, IsHalfPoint, SpellsKind};
ghost use Rattle.ctl_tree.specs.Tokens.{begins_comment};
ghost use Rattle.ctl_lexer.specs.Means.{IsFront, is_mark, NoPoint, NoHalfPoint, NoNumber};

use crate::bytes::{in_name, is_digit};
use crate::front::Piece;
use crate::wholes::{begins_hexadecimal, whole_of};
use ctl_tree::{LexKind, TokenKind};
use fix_num::{FRACTION, Fix, read_decimal, spells_once};

pub(crate) fn begins_number(bytes: &[u8]) -> bool
    ensures { result ≡ begins_number bytes.now }
{
    match bytes {
        [b'.', second, ..] => is_digit(*second),
        [first, ..] => is_digit(*first),
        [] => false,
    }
}

fn in_number(hexadecimal: bool, before: u8, b: u8) -> bool
    ensures { result ≡ in_number hexadecimal before b }
{
    in_name(b)
        || b == b'.'
        || ((b == b'+' || b == b'-') && (before == b'e' || before == b'E') && !hexadecimal)
}

// How many bytes at the front are those of a number spelling that begins there.
fn number_length(bytes: &[u8]) -> usize
    requires { 0 < length bytes.now }
    ensures some { 0 < result }
    ensures within { result ≤ length bytes.now }
    ensures pass { (i : ℕ) → 0 < i → i < result → goes_on_at bytes.now i ≡ true }
    ensures stops { result < length bytes.now → goes_on_at bytes.now result ≡ false }
{
    let hexadecimal = begins_hexadecimal(bytes);
    for n in 1..bytes.len() {
        if !in_number(hexadecimal, bytes[n - 1], bytes[n]) {
            return n;
        }
    }
    bytes.len()
}

fn has_point_or_exponent(bytes: &[u8]) -> bool
    ensures { result ≡ list_any is_mark bytes.now }
{
    bytes.iter().any(|b| *b == b'.' || *b == b'e' || *b == b'E')
}

// Whether the last byte is one of two.
fn ends_with(lower: u8, upper: u8, bytes: &[u8]) -> bool
    requires { 0 < length bytes.now }
    ensures { result ≡ ends_with lower upper bytes.now }
{
    let last = bytes[bytes.len() - 1];
    last == lower || last == upper
}

fn without_f(bytes: &[u8]) -> &[u8]
    requires { 0 < length bytes.now }
    ensures { result.now ≡ without_f bytes.now }
{
    if ends_with(b'f', b'F', bytes) {
        &bytes[..bytes.len() - 1]
    } else {
        bytes
    }
}

// The point number with these bytes.
fn point_of(bytes: &[u8]) -> Option<Fix>
    requires { IsNumberSpelling bytes.now }
    ensures { MatchOption result (NoPoint FRACTION bytes.now) (IsPoint FRACTION bytes.now) }
{
    spells_once();
    let spelling = without_f(bytes);
    if !has_point_or_exponent(spelling) {
        return None;
    }
    read_decimal(spelling).ok()
}

// The half number with these bytes.
fn half_of(bytes: &[u8]) -> Option<Fix>
    requires { IsNumberSpelling bytes.now }
    ensures { MatchOption result (NoHalfPoint FRACTION bytes.now) (IsHalfPoint FRACTION bytes.now) }
{
    spells_once();
    if !ends_with(b'h', b'H', bytes) {
        return None;
    }
    let value = read_decimal(&bytes[..bytes.len() - 1]).ok()?;
    Some(value.to_half())
}

// The number with these bytes.
fn number_of(bytes: &[u8]) -> Option<TokenKind>
    requires { IsNumberSpelling bytes.now }
    ensures { MatchOption result (NoNumber FRACTION bytes.now) (λ kind. SpellsKind FRACTION kind bytes.now) }
{
    if let Some(n) = whole_of(bytes) {
        return Some(TokenKind::Whole(n));
    }
    if let Some(value) = point_of(bytes) {
        return Some(TokenKind::Point(value));
    }
    if let Some(value) = half_of(bytes) {
        return Some(TokenKind::HalfPoint(value));
    }
    None
}

// The number that begins here.
pub(crate) fn number_at(bytes: &[u8]) -> Result<Piece, LexKind>
    requires more { 0 < length bytes.now }
    requires apart { begins_comment bytes.now ≡ false }
    requires begins { begins_number bytes.now ≡ true }
    ensures { IsFront FRACTION bytes.now result }
{
    let len = number_length(bytes);
    if let Some(kind) = number_of(&bytes[..len]) {
        return Ok(Piece::Token(kind, len));
    }
    Err(LexKind::Literal)
}
