//! Comments.

ghost use Rattle.std.specs.Prelude.{◌≡◌, ◌<◌, ℕ, length, slice_index, true, false, MatchOption};
ghost use Rattle.ctl_tree.specs.Tokens.{begins_comment, closes_at, IsLineComment, IsBlockComment, IsComment};
ghost use Rattle.ctl_lexer.specs.Means.{IsFront};

use crate::front::Piece;
use ctl_tree::LexKind;
use fix_num::FRACTION;

pub(crate) fn begins_comment(bytes: &[u8]) -> bool
    ensures { result ≡ begins_comment bytes.now }
{
    matches!(bytes, [b'/', b'/' | b'*', ..])
}

// How many bytes the comment has that goes up to the end of the line.
fn line_length(bytes: &[u8]) -> usize
    requires more { 1 < length bytes.now }
    requires first { slice_index bytes.now 0 ≡ 47 }
    requires second { slice_index bytes.now 1 ≡ 47 }
    ensures { IsLineComment bytes.now result }
{
    for n in 2..bytes.len() {
        if bytes[n] == b'\n' {
            return n;
        }
    }
    bytes.len()
}

// How many bytes the comment has that goes up to a closing mark.
fn block_length(bytes: &[u8]) -> Option<usize>
    requires more { 1 < length bytes.now }
    requires first { slice_index bytes.now 0 ≡ 47 }
    requires second { slice_index bytes.now 1 ≡ 42 }
    ensures { MatchOption result ((n : ℕ) → IsBlockComment bytes.now n → ⊥) (IsBlockComment bytes.now) }
{
    for n in 3..bytes.len() {
        if bytes[n - 1] == b'*' && bytes[n] == b'/' {
            return Some(n + 1);
        }
    }
    None
}

// The comment that begins here.
pub(crate) fn comment_at(bytes: &[u8]) -> Result<Piece, LexKind>
    requires { begins_comment bytes.now ≡ true }
    ensures { IsFront FRACTION bytes.now result }
{
    if bytes[1] == b'/' {
        return Ok(Piece::Space(line_length(bytes)));
    }
    if let Some(len) = block_length(bytes) {
        return Ok(Piece::Space(len));
    }
    Err(LexKind::OpenComment)
}
