//! The tokens of a text, piece by piece.

ghost use Rattle.std.specs.Prelude.{◌≡◌, ◌<◌, ◌≤◌, ◌+◌, ◌++◌, length, drop, IfOk, IfErr};
ghost use Rattle.ctl_tree.specs.Tokens.{StandsFor};
ghost use Rattle.ctl_tree.specs.Lines.{line_at};
ghost use Rattle.ctl_base.specs.declared.limits.TheConstants.{TEXT_BYTES};
ghost use Rattle.ctl_lexer.specs.Means.{IsPiece, FaultAt, tokens_of};
ghost use Rattle.ctl_lexer.specs.Faults.{FaultOf, NoList};

use crate::bytes::line_feeds;
use crate::fault::LexFault;
use crate::front::{Piece, piece_at};
use ctl_base::Memory;
use ctl_tree::{Token, TokenKind, TokenList};
use fix_num::FRACTION;
use std::alloc::Global;

// The line after some more bytes.
#[tactic(auto, using(crate::proofs::Cover::count_more))]
fn line_after(bytes: &[u8], at: usize, n: usize, line: u32) -> u32
    requires short { length bytes.now ≤ TEXT_BYTES }
    requires within { at + n ≤ length bytes.now }
    requires counted { line ≡ line_at bytes.now at }
    ensures { result ≡ line_at bytes.now (at + n) }
{
    line + line_feeds(&bytes[at..at + n]) as u32
}

// The piece that begins at a byte of a text.
fn piece_from(bytes: &[u8], at: usize, line: u32) -> Result<Piece, LexFault>
    requires short { length bytes.now ≤ TEXT_BYTES }
    requires within { at < length bytes.now }
    ensures piece { IfOk result (λ piece. IsPiece FRACTION (drop at bytes.now) piece) }
    ensures fault { IfErr result (FaultAt FRACTION bytes.now at line) }
{
    match piece_at(&bytes[at..]) {
        Ok(piece) => Ok(piece),
        Err(kind) => Err(LexFault::At {
            at: at as u32,
            line,
            kind,
        }),
    }
}

// Puts the token of a kind, if there is one, last.
fn put(
    tokens: &mut TokenList,
    kind: Option<TokenKind>,
    len: usize,
    at: u32,
    line: u32,
) -> Result<(), Memory>
    requires { len ≤ TEXT_BYTES }
    ensures { IfOk result (λ _. tokens.new ≡ tokens.old ++ tokens_of kind len at line) }
{
    match kind {
        None => Ok(()),
        Some(kind) => tokens.push(Token {
            kind,
            at,
            len: len as u32,
            line,
        }),
    }
}

/// The tokens of a text of at most 2^24 bytes, or where and why it has none.
pub fn lex(alloc: Global, bytes: &[u8]) -> Result<TokenList, LexFault>
    requires { length bytes.now ≤ TEXT_BYTES }
    ensures stands { IfOk result (λ tokens. StandsFor FRACTION tokens bytes.now) }
    ensures fault { IfErr result (FaultOf FRACTION bytes.now) }
    ensures none { IfErr result (NoList FRACTION bytes.now) }
{
    let mut tokens = TokenList::new(alloc);
    let mut at = 0;
    let mut line = 1;
    'each: while at < bytes.len() {
        let piece = match piece_from(bytes, at, line) {
            Ok(piece) => piece,
            Err(fault) => return Err(fault),
        };
        let (kind, len) = piece.parts();
        put(&mut tokens, kind, len, at as u32, line)?;
        line = line_after(bytes, at, len, line);
        at += len;
    }
    Ok(tokens)
}
