//! The tests of the tables.

use super::tables::{
    ALONE, HALVES, POINTS, REFUSED, SIGNS, SIGNS_IN_A_ROW, TEXTS_AND_COMMENTS, WHOLES, WORDS,
};
use ctl_base::limits::TEXT_BYTES;
use ctl_lexer::{LexFault, faults_have_no_tokens, lex, one_fault, one_list, tokens_or_fault};
use ctl_tree::{Keyword, LexKind, Sign, Token, TokenKind, TokenList};
use std::alloc::Global;

/// What a token is to be: a number with a point by its raw.
#[derive(Clone, Copy)]
pub(super) enum Want {
    Word(Keyword),
    Name,
    Whole(u32),
    Point(i64),
    HalfPoint(i64),
    Text,
    Sign(Sign),
}

/// A wanted token: what it is, its byte, its number of bytes and its line.
pub(super) type Row = (Want, u32, u32, u32);

fn is_kind(kind: &TokenKind, want: Want) -> bool {
    match (kind, want) {
        (TokenKind::Word(a), Want::Word(b)) => *a == b,
        (TokenKind::Name, Want::Name) => true,
        (TokenKind::Whole(a), Want::Whole(b)) => *a == b,
        (TokenKind::Point(a), Want::Point(b)) => a.raw() == b,
        (TokenKind::HalfPoint(a), Want::HalfPoint(b)) => a.raw() == b,
        (TokenKind::Text, Want::Text) => true,
        (TokenKind::Sign(a), Want::Sign(b)) => *a == b,
        _ => false,
    }
}

fn is_row(token: &Token, row: Row) -> bool {
    is_kind(&token.kind, row.0) && token.at == row.1 && token.len == row.2 && token.line == row.3
}

fn are_rows(tokens: &[Token], rows: &[Row]) -> bool {
    tokens.len() == rows.len()
        && tokens
            .iter()
            .zip(rows)
            .all(|(token, row)| is_row(token, *row))
}

// The tokens of a text of the tables, which are all short.
fn tokens_of(alloc: Global, text: &[u8]) -> Result<TokenList, LexFault> {
    if text.len() as u64 > TEXT_BYTES {
        return Err(LexFault::Memory);
    }
    lex(alloc, text)
}

fn has_tokens(alloc: Global, text: &[u8], rows: &[Row]) -> bool {
    match tokens_of(alloc, text) {
        Ok(tokens) => are_rows(tokens.as_slice(), rows),
        Err(_) => false,
    }
}

fn has_fault(alloc: Global, text: &[u8], wanted: LexFault) -> bool {
    match tokens_of(alloc, text) {
        Ok(_) => false,
        Err(fault) => fault == wanted,
    }
}

// The place of the first text that has other tokens than the table says.
fn first_wrong_tokens(alloc: Global, table: &[(&[u8], &[Row])]) -> Option<usize> {
    table
        .iter()
        .position(|(text, rows)| !has_tokens(alloc, text, rows))
}

// The place of the first text that has another fault than the table says.
fn first_wrong_fault(alloc: Global, table: &[(&[u8], u32, u32, LexKind)]) -> Option<usize> {
    table.iter().position(|(text, at, line, kind)| {
        let wanted = LexFault::At {
            at: *at,
            line: *line,
            kind: *kind,
        };
        !has_fault(alloc, text, wanted)
    })
}

fn holds(alloc: Global, table: &(&[u8], &[Row])) -> bool {
    has_tokens(alloc, table.0, table.1)
}

#[test]
fn words_and_signs_have_their_tokens(rt: HostRuntime) {
    assert!(rt; holds(rt.alloc(), &WORDS));
    assert!(rt; holds(rt.alloc(), &SIGNS));
    assert!(rt; holds(rt.alloc(), &SIGNS_IN_A_ROW));
}

#[test]
fn numbers_have_their_tokens(rt: HostRuntime) {
    assert!(rt; holds(rt.alloc(), &WHOLES));
    assert!(rt; holds(rt.alloc(), &POINTS));
    assert!(rt; holds(rt.alloc(), &HALVES));
}

#[test]
fn texts_and_comments_have_their_tokens(rt: HostRuntime) {
    assert!(rt; holds(rt.alloc(), &TEXTS_AND_COMMENTS));
    assert_eq!(rt; first_wrong_tokens(rt.alloc(), &ALONE), None);
}

#[test]
fn texts_have_their_faults(rt: HostRuntime) {
    assert_eq!(rt; first_wrong_fault(rt.alloc(), &REFUSED), None);
}

#[test]
fn the_laws_are_there() {
    one_list();
    one_fault();
    faults_have_no_tokens();
    tokens_or_fault();
}
