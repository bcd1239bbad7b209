//! The tokens of a source, looked at by their places.

ghost use Rattle.std.specs.Prelude.{◌≡◌, ◌≢◌, ◌<◌, ◌≤◌, length, Some, None, All, slice_get, IfSome, IfNone};
ghost use Rattle.std.specs.Option.{option_copied};
ghost use Rattle.ctl_tree.specs.Lexemes.{lexemes_of, kind_at, bytes_at};
ghost use Rattle.ctl_parser_expr.specs.Lookup.{IsInside, Told};

use ctl_base::limits::TEXT_BYTES;
use ctl_tree::{Token, TokenKind};
use sqlite_items::at;
use std::marker::Model;

/// Tokens that lie in their source.
#[derive(Drop)]
pub struct Lexemes<'a> {
    source: &'a [u8],
    tokens: &'a [Token],
}

impl<'a> Model for Lexemes<'a> {
    ghost use Rattle.std.specs.Prelude.{List, ◌≤◌, length, All};
    ghost use Rattle.ctl_base.specs.declared.limits.TheConstants.{TEXT_BYTES};
    ghost use Rattle.ctl_tree.specs.Lexemes.{Lexeme, lexemes_of};
    ghost use Rattle.ctl_parser_expr.specs.Lookup.{IsInside};

    ghost Value = { List Lexeme };

    ghost view = { λ l. lexemes_of l.source.now l.tokens.now };

    ghost invariant = { λ l. (length l.tokens.now ≤ TEXT_BYTES) × All (IsInside l.source.now) l.tokens.now };
}

impl<'a> Lexemes<'a> {
    pub fn new(source: &'a [u8], tokens: &'a [Token]) -> Lexemes<'a>
        requires few { length tokens.now ≤ TEXT_BYTES }
        requires inside { All (IsInside source.now) tokens.now }
        ensures { result ≡ lexemes_of source.now tokens.now }
    {
        Lexemes { source, tokens }
    }

    /// How many tokens there are.
    pub fn len(&self) -> usize
        ensures exact { result ≡ length self.now }
        ensures few { result ≤ TEXT_BYTES }
    {
        self.tokens.len()
    }

    /// The kind of the token at a place, if there is one.
    pub fn kind(&self, place: usize) -> Option<TokenKind>
        ensures exact { result ≡ kind_at self.now place }
        ensures within { IfSome result (λ _. place < length self.now) }
        ensures few { length self.now ≤ TEXT_BYTES }
    {
        let token = self.tokens.get(place)?;
        Some(token.kind)
    }

    /// The bytes of the token at a place.
    pub fn bytes(&self, place: usize) -> &[u8]
        ensures { result.now ≡ bytes_at self.now place }
    {
        match at(self.tokens, place) {
            None => &[],
            Some(token) => {
                let from = token.at as usize;
                &self.source[from..from + token.len as usize]
            }
        }
    }
}
