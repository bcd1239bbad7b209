//! Names and keywords.

ghost use Rattle.std.specs.Prelude.{◌≡◌, ◌<◌, ◌≤◌, ℕ, length, slice_index, true, false, MatchOption};
ghost use Rattle.ctl_tree.specs.Spelling.{keyword_bytes};
ghost use Rattle.ctl_tree.specs.TokenBytes.{begins_name, in_name, IsName, SpellsKind};
ghost use Rattle.ctl_tree.specs.Tokens.{begins_comment};
ghost use Rattle.ctl_lexer.specs.Means.{IsFront, NoKeyword};

use crate::bytes::in_name;
use crate::front::Piece;
use ctl_tree::{Keyword, LexKind, TokenKind};
use fix_num::FRACTION;

// How many bytes at the front are letters, digits and _.
fn name_length(bytes: &[u8]) -> usize
    ensures within { result ≤ length bytes.now }
    ensures pass { (i : ℕ) → i < result → in_name (slice_index bytes.now i) ≡ true }
    ensures stops { result < length bytes.now → in_name (slice_index bytes.now result) ≡ false }
{
    for (n, b) in bytes.iter().enumerate() {
        if !in_name(*b) {
            return n;
        }
    }
    bytes.len()
}

// The keyword with these bytes.
fn keyword_of(bytes: &[u8]) -> Option<Keyword>
    ensures { MatchOption result (NoKeyword bytes.now) (λ keyword. bytes.now ≡ keyword_bytes keyword) }
{
    match bytes {
        b"bool" => Some(Keyword::Bool),
        b"const" => Some(Keyword::Const),
        b"ctlversion" => Some(Keyword::Ctlversion),
        b"else" => Some(Keyword::Else),
        b"false" => Some(Keyword::False),
        b"float" => Some(Keyword::Float),
        b"for" => Some(Keyword::For),
        b"half" => Some(Keyword::Half),
        b"if" => Some(Keyword::If),
        b"import" => Some(Keyword::Import),
        b"input" => Some(Keyword::Input),
        b"int" => Some(Keyword::Int),
        b"namespace" => Some(Keyword::Namespace),
        b"output" => Some(Keyword::Output),
        b"print" => Some(Keyword::Print),
        b"return" => Some(Keyword::Return),
        b"string" => Some(Keyword::String),
        b"struct" => Some(Keyword::Struct),
        b"true" => Some(Keyword::True),
        b"uniform" => Some(Keyword::Uniform),
        b"unsigned" => Some(Keyword::Unsigned),
        b"varying" => Some(Keyword::Varying),
        b"void" => Some(Keyword::Void),
        b"while" => Some(Keyword::While),
        _ => None,
    }
}

// The keyword with these bytes, or a name.
fn word_of(bytes: &[u8]) -> TokenKind
    requires { IsName bytes.now }
    ensures { SpellsKind FRACTION result bytes.now }
{
    match keyword_of(bytes) {
        Some(keyword) => TokenKind::Word(keyword),
        None => TokenKind::Name,
    }
}

// The name or keyword that begins here.
pub(crate) fn name_at(bytes: &[u8]) -> Result<Piece, LexKind>
    requires more { 0 < length bytes.now }
    requires apart { begins_comment bytes.now ≡ false }
    requires begins { begins_name (slice_index bytes.now 0) ≡ true }
    ensures { IsFront FRACTION bytes.now result }
{
    let len = name_length(bytes);
    let kind = word_of(&bytes[..len]);
    Ok(Piece::Token(kind, len))
}
