//! A token and its place.

ghost use Rattle.std.specs.Prelude.{◌≡◌, Some};
ghost use Rattle.ctl_tree.specs.Names.{literal_of};

use crate::{Keyword, LiteralValue, Sign};
use fix_num::Fix;

/// What a token is. A name and a text are known by the bytes of their span.
#[derive(Clone, Copy, Debug, PartialEq, Eq)]
pub enum TokenKind {
    Word(Keyword),
    Name,
    /// A whole number. Up to 2147483647 it is an int, above an unsigned.
    Whole(u32),
    /// A number with a point or an exponent.
    Point(Fix),
    /// A number with `h` or `H` after it.
    HalfPoint(Fix),
    /// A text in quotes, the quotes with it.
    Text,
    Sign(Sign),
}

/// A token of a text: its span begins at the byte `at` and has `len` bytes, and `line` is one
/// plus the number of line feeds before it.
#[derive(Clone, Copy, Debug, PartialEq, Eq)]
pub struct Token {
    pub kind: TokenKind,
    pub at: u32,
    pub len: u32,
    pub line: u32,
}

impl TokenKind {
    /// The value of a literal, where the token is one.
    pub fn literal(&self) -> Option<LiteralValue>
        ensures { result ≡ literal_of (Some self.now) }
    {
        match self {
            TokenKind::Whole(n) => Some(LiteralValue::Whole(*n)),
            TokenKind::Point(value) => Some(LiteralValue::Point(*value)),
            TokenKind::HalfPoint(value) => Some(LiteralValue::HalfPoint(*value)),
            TokenKind::Word(Keyword::True) => Some(LiteralValue::Truth(true)),
            TokenKind::Word(Keyword::False) => Some(LiteralValue::Truth(false)),
            _ => None,
        }
    }
}
