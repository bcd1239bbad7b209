//! What single tokens begin.

ghost use Rattle.std.specs.Prelude.{◌≡◌};
ghost use Rattle.grammar_machine.specs.Front.{begins_word_shape as word_shape_begins, begins_shape as shape_begins, begins_statement as statement_begins};
ghost use Rattle.ctl_parser.specs.PrivateParts.{goes_on_as_place as goes_on};

use ctl_tree::{Keyword, Sign, TokenKind};

/// Whether a token is a keyword that begins a shape.
pub fn begins_word_shape(kind: Option<TokenKind>) -> bool
    ensures { result ≡ word_shape_begins kind }
{
    matches!(
        kind,
        Some(TokenKind::Word(
            Keyword::Bool | Keyword::Int | Keyword::Unsigned | Keyword::Half | Keyword::Float
        ))
    )
}

/// Whether a token begins a shape.
pub fn begins_shape(kind: Option<TokenKind>) -> bool
    ensures { result ≡ shape_begins kind }
{
    match kind {
        Some(TokenKind::Name | TokenKind::Sign(Sign::ColonColon)) => true,
        other => begins_word_shape(other),
    }
}

/// Whether a token begins a statement.
pub fn begins_statement(kind: Option<TokenKind>) -> bool
    ensures { result ≡ statement_begins kind }
{
    match kind {
        Some(
            TokenKind::Sign(Sign::OpenCurly | Sign::Semicolon)
            | TokenKind::Word(
                Keyword::Const
                | Keyword::If
                | Keyword::While
                | Keyword::For
                | Keyword::Return
                | Keyword::Print,
            ),
        ) => true,
        other => begins_shape(other),
    }
}

/// Whether a token after the name of a variable goes on with a place or assigns to it.
pub fn goes_on_as_place(kind: Option<TokenKind>) -> bool
    ensures { result ≡ goes_on kind }
{
    matches!(
        kind,
        Some(TokenKind::Sign(Sign::OpenSquare | Sign::Dot | Sign::Assign))
    )
}
