//! Signs.

ghost use Rattle.std.specs.Prelude.{◌≡◌, ◌==◌, ◌<◌, ◌≤◌, ℕ, [], ◌∷◌, length, slice_index, true, false, MatchOption};
ghost use Rattle.ctl_tree.specs.Spelling.{sign_bytes};
ghost use Rattle.ctl_tree.specs.TokenBytes.{is_blank, begins_name, begins_number};
ghost use Rattle.ctl_tree.specs.Tokens.{begins_comment};
ghost use Rattle.ctl_lexer.specs.Means.{IsFront, NoSign, NoDouble, IsDouble};

use crate::front::Piece;
use ctl_tree::{LexKind, Sign, TokenKind};
use fix_num::FRACTION;

// The sign of two bytes.
fn double_sign(first: u8, second: u8) -> Option<Sign>
    ensures { MatchOption result (NoSign (first ∷ second ∷ [])) (λ sign. first ∷ second ∷ [] ≡ sign_bytes sign) }
{
    match (first, second) {
        (b'<', b'<') => Some(Sign::ShiftLeft),
        (b'>', b'>') => Some(Sign::ShiftRight),
        (b'&', b'&') => Some(Sign::AndAnd),
        (b'|', b'|') => Some(Sign::OrOr),
        (b'=', b'=') => Some(Sign::EqualTo),
        (b'!', b'=') => Some(Sign::NotEqualTo),
        (b'<', b'=') => Some(Sign::AtMost),
        (b'>', b'=') => Some(Sign::AtLeast),
        (b':', b':') => Some(Sign::ColonColon),
        _ => None,
    }
}

// The sign of one byte.
fn single_sign(b: u8) -> Option<Sign>
    ensures { MatchOption result (NoSign (b ∷ [])) (λ sign. b ∷ [] ≡ sign_bytes sign) }
{
    match b {
        b'+' => Some(Sign::Plus),
        b'-' => Some(Sign::Minus),
        b'*' => Some(Sign::Star),
        b'/' => Some(Sign::Slash),
        b'%' => Some(Sign::Percent),
        b'&' => Some(Sign::Ampersand),
        b'|' => Some(Sign::Bar),
        b'^' => Some(Sign::Caret),
        b'~' => Some(Sign::Tilde),
        b'!' => Some(Sign::Exclamation),
        b'<' => Some(Sign::LessThan),
        b'>' => Some(Sign::GreaterThan),
        b'=' => Some(Sign::Assign),
        b'(' => Some(Sign::OpenRound),
        b')' => Some(Sign::CloseRound),
        b'[' => Some(Sign::OpenSquare),
        b']' => Some(Sign::CloseSquare),
        b'{' => Some(Sign::OpenCurly),
        b'}' => Some(Sign::CloseCurly),
        b',' => Some(Sign::Comma),
        b';' => Some(Sign::Semicolon),
        b'.' => Some(Sign::Dot),
        _ => None,
    }
}

// The sign of two bytes that begins here.
fn double_sign_at(bytes: &[u8]) -> Option<Sign>
    ensures { MatchOption result (NoDouble bytes.now) (IsDouble bytes.now) }
{
    match bytes {
        [first, second, ..] => double_sign(*first, *second),
        _ => None,
    }
}

// The sign that begins here.
pub(crate) fn sign_at(bytes: &[u8]) -> Result<Piece, LexKind>
    requires more { 0 < length bytes.now }
    requires no_blank { is_blank (slice_index bytes.now 0) ≡ false }
    requires apart { begins_comment bytes.now ≡ false }
    requires no_text { (slice_index bytes.now 0 == 34) ≡ false }
    requires no_name { begins_name (slice_index bytes.now 0) ≡ false }
    requires no_number { begins_number bytes.now ≡ false }
    ensures { IsFront FRACTION bytes.now result }
{
    if let Some(sign) = double_sign_at(bytes) {
        return Ok(Piece::Token(TokenKind::Sign(sign), 2));
    }
    if let Some(sign) = single_sign(bytes[0]) {
        return Ok(Piece::Token(TokenKind::Sign(sign), 1));
    }
    if 128 <= bytes[0] {
        return Err(LexKind::NotAscii);
    }
    Err(LexKind::NoToken)
}
