//! Signs, keywords and names at a place, and the nesting.

ghost use Rattle.std.specs.Prelude.{◌⊎◌, ◌≡◌, ◌≢◌, ◌+◌, ◌<◌, ◌≤◌, [], ◌∷◌, length, Some, IfOk, IfErr};
ghost use Rattle.ctl_tree.specs.declared.sign.Sign.TheVariants.{ColonColon};
ghost use Rattle.ctl_tree.specs.declared.token.TokenKind.TheVariants.{Name, Text};
ghost use Rattle.ctl_tree.specs.Lexemes.{kind_at, SeesSign, LacksSign, SeesWord, LacksWord, SeesName};
ghost use Rattle.ctl_parser_expr.specs.Lookup.{Told};
ghost use Rattle.grammar_machine.specs.Machine.Symbol.{TheSign, TheName};
ghost use Rattle.ctl_parser_expr.specs.Parses.{Fails, IsTooDeepAt};

use crate::fault::Fault;
use crate::lexemes::Lexemes;
use ctl_base::ByteText;
use ctl_base::limits::{NESTING, TEXT_BYTES};
use ctl_tree::{Keyword, Sign, TokenKind};
use std::alloc::Global;

/// Whether a sign stands at a place.
pub fn sees(lexemes: &Lexemes<'_>, sign: Sign, at: usize) -> bool
    ensures told { Told result (SeesSign lexemes.now at sign × (at < length lexemes.now)) (LacksSign lexemes.now at sign) }
    ensures few { length lexemes.now ≤ TEXT_BYTES }
{
    match lexemes.kind(at) {
        Some(TokenKind::Sign(other)) => other == sign,
        _ => false,
    }
}

/// Whether a keyword stands at a place.
pub fn sees_word(lexemes: &Lexemes<'_>, word: Keyword, at: usize) -> bool
    ensures told { Told result (SeesWord lexemes.now at word × (at < length lexemes.now)) (LacksWord lexemes.now at word) }
    ensures few { length lexemes.now ≤ TEXT_BYTES }
{
    match lexemes.kind(at) {
        Some(TokenKind::Word(other)) => other == word,
        _ => false,
    }
}

/// Whether a name stands at a place.
pub fn sees_name(lexemes: &Lexemes<'_>, at: usize) -> bool
    ensures told { Told result ((kind_at lexemes.now at ≡ Some Name) × (at < length lexemes.now)) (kind_at lexemes.now at ≢ Some Name) }
    ensures few { length lexemes.now ≤ TEXT_BYTES }
{
    matches!(lexemes.kind(at), Some(TokenKind::Name))
}

/// Whether a name or `::` stands at a place, with which a qualified name begins.
pub fn begins_name(lexemes: &Lexemes<'_>, at: usize) -> bool
    ensures told { Told result (((kind_at lexemes.now at ≡ Some Name) ⊎ SeesSign lexemes.now at ColonColon) × (at < length lexemes.now)) ((kind_at lexemes.now at ≢ Some Name) × LacksSign lexemes.now at ColonColon) }
    ensures few { length lexemes.now ≤ TEXT_BYTES }
{
    matches!(
        lexemes.kind(at),
        Some(TokenKind::Name | TokenKind::Sign(Sign::ColonColon))
    )
}

/// Whether a text stands at a place.
pub fn sees_text(lexemes: &Lexemes<'_>, at: usize) -> bool
    ensures told { Told result ((kind_at lexemes.now at ≡ Some Text) × (at < length lexemes.now)) (kind_at lexemes.now at ≢ Some Text) }
    ensures few { length lexemes.now ≤ TEXT_BYTES }
{
    matches!(lexemes.kind(at), Some(TokenKind::Text))
}

/// Nothing where a sign stands at a place at which it must stand.
pub fn expect(lexemes: &Lexemes<'_>, sign: Sign, at: usize) -> Result<(), Fault>
    ensures sees { IfOk result (λ _. SeesSign lexemes.now at sign × (at < length lexemes.now) × (length lexemes.now ≤ TEXT_BYTES)) }
    ensures fails { IfErr result (Fails lexemes.now (TheSign sign ∷ []) at) }
{
    if !sees(lexemes, sign, at) {
        return Err(Fault::NotHere(at));
    }
    Ok(())
}

/// The name that must stand at a place.
pub fn name(alloc: Global, lexemes: &Lexemes<'_>, at: usize) -> Result<ByteText, Fault>
    ensures sees { IfOk result (λ name. SeesName lexemes.now at name × (at < length lexemes.now) × (length lexemes.now ≤ TEXT_BYTES)) }
    ensures fails { IfErr result (Fails lexemes.now (TheName ∷ []) at) }
{
    if !sees_name(lexemes, at) {
        return Err(Fault::NotHere(at));
    }
    Ok(ByteText::new(alloc, lexemes.bytes(at))?)
}

/// Nothing where the nesting may become one deeper at a place.
pub fn allow_deeper(nesting: u32, at: usize) -> Result<(), Fault>
    requires { nesting ≤ NESTING }
    ensures allowed { IfOk result (λ _. nesting + 1 ≤ NESTING) }
    ensures deep { IfErr result (IsTooDeepAt nesting at) }
{
    if nesting == NESTING {
        return Err(Fault::Depth(at));
    }
    Ok(())
}
