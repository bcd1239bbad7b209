//! Texts in quotes.

ghost use Rattle.std.specs.Prelude.{◌≡◌, ◌<◌, ℕ, length, slice_index, true, false};
ghost use Rattle.ctl_tree.specs.Tokens.{begins_comment};
ghost use Rattle.ctl_lexer.specs.Means.{IsFront, TextLength};

use crate::front::Piece;
use ctl_tree::{LexKind, TokenKind};
use fix_num::FRACTION;

// How many bytes the text has that begins here.
fn text_length(bytes: &[u8]) -> Option<usize>
    requires begins { slice_index bytes.now 0 ≡ 34 }
    ensures { TextLength bytes.now result }
{
    let mut escaped = false;
    for n in 1..bytes.len() {
        if bytes[n] == b'\n' {
            return None;
        }
        if bytes[n] == b'"' && !escaped {
            return Some(n + 1);
        }
        escaped = bytes[n] == b'\\' && !escaped;
    }
    None
}

// The text that begins here.
pub(crate) fn text_at(bytes: &[u8]) -> Result<Piece, LexKind>
    requires more { 0 < length bytes.now }
    requires begins { slice_index bytes.now 0 ≡ 34 }
    ensures { IsFront FRACTION bytes.now result }
{
    if let Some(len) = text_length(bytes) {
        return Ok(Piece::Token(TokenKind::Text, len));
    }
    Err(LexKind::OpenText)
}
