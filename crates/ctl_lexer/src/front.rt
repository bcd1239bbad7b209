//! What stands at the front of a list of bytes.

ghost use Rattle.std.specs.Prelude.{◌≡◌, ◌<◌, length};
ghost use Rattle.ctl_lexer.specs.Means.{IsFront, piece_kind, piece_len};

use crate::bytes::{begins_name, is_blank};
use crate::comments::{begins_comment, comment_at};
use crate::names::name_at;
use crate::numbers::{begins_number, number_at};
use crate::signs::sign_at;
use crate::texts::text_at;
use ctl_tree::{LexKind, TokenKind};
use fix_num::FRACTION;

/// A blank or comment, or a token, with its number of bytes.
#[derive(Clone, Copy, Debug, PartialEq, Eq)]
pub(crate) enum Piece {
    Space(usize),
    Token(TokenKind, usize),
}

impl Piece {
    /// The kind of its token, if it has one, and its number of bytes.
    pub(crate) fn parts(self) -> (Option<TokenKind>, usize)
        ensures kind { result.0 ≡ piece_kind self }
        ensures len { result.1 ≡ piece_len self }
    {
        match self {
            Piece::Space(len) => (None, len),
            Piece::Token(kind, len) => (Some(kind), len),
        }
    }
}

// The piece that begins here.
pub(crate) fn piece_at(bytes: &[u8]) -> Result<Piece, LexKind>
    requires { 0 < length bytes.now }
    ensures { IsFront FRACTION bytes.now result }
{
    if is_blank(bytes[0]) {
        return Ok(Piece::Space(1));
    }
    if begins_comment(bytes) {
        return comment_at(bytes);
    }
    if bytes[0] == b'"' {
        return text_at(bytes);
    }
    if begins_name(bytes[0]) {
        return name_at(bytes);
    }
    if begins_number(bytes) {
        return number_at(bytes);
    }
    sign_at(bytes)
}
