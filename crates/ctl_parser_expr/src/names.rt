//! Qualified names and shapes.

ghost use Rattle.std.specs.Prelude.{◌≡◌, ◌-◌, ◌+◌, ◌<◌, ◌≤◌, [], ◌∷◌, length, Some, IfOk};
ghost use Rattle.ctl_tree.specs.declared.token.TokenKind.TheVariants.{Name};
ghost use Rattle.ctl_tree.specs.declared.declaration.ShapeKind.TheVariants.{Named};
ghost use Rattle.ctl_tree.specs.declared.keyword.Keyword.TheVariants.{Unsigned};
ghost use Rattle.ctl_tree.specs.Lexemes.{kind_at, SeesWord};
ghost use Rattle.ctl_tree.specs.Names.{AreNames, IsQualifiedName, IsShape};
ghost use Rattle.grammar_machine.specs.Machine.Symbol.{QualifiedName as QualifiedNameSymbol, MoreNames, Shape};
ghost use Rattle.ctl_parser_expr.specs.Lookup.{shape_of_token};
ghost use Rattle.ctl_parser_expr.specs.Parses.{Parses, ParsesAny};

use crate::fault::Fault;
use crate::lexemes::Lexemes;
use crate::lists::put;
use crate::marks::{begins_name, name, sees, sees_name, sees_word};
use ctl_base::limits::TEXT_BYTES;
use ctl_base::{ByteText, Memory};
use ctl_tree::{Keyword, QualifiedName, ShapeKind, ShapeName, Sign, TokenKind};
use sqlite_items::{Boxed, Items};
use std::alloc::Global;

/// `[ "::" ] NAME { "::" NAME }`
#[tactic(auto, using(crate::proofs::Ways::no_memory))]
pub fn qualified_name(
    alloc: Global,
    lexemes: &Lexemes<'_>,
    at: usize,
) -> Result<(QualifiedName, usize), Fault>
    ensures { Parses lexemes.now (IsQualifiedName lexemes.now at) (QualifiedNameSymbol ∷ []) at result }
{
    if sees_name(lexemes, at) {
        return names(alloc, lexemes, false, at);
    }
    if !sees(lexemes, Sign::ColonColon, at) {
        return Err(Fault::NotHere(at));
    }
    if !sees_name(lexemes, at + 1) {
        return Err(Fault::NotHere(at + 1));
    }
    names(alloc, lexemes, true, at + 1)
}

// `NAME { "::" NAME }`, where the first name stands.
#[tactic(auto, using(crate::proofs::Ways::no_memory))]
fn names(
    alloc: Global,
    lexemes: &Lexemes<'_>,
    is_global: bool,
    at: usize,
) -> Result<(QualifiedName, usize), Fault>
    requires sees { kind_at lexemes.now at ≡ Some Name }
    requires within { at < length lexemes.now }
    requires few { length lexemes.now ≤ TEXT_BYTES }
    ensures { ParsesAny lexemes.now (λ name end. AreNames lexemes.now at name.spaces name.name end × (name ≡ record { is_global = is_global; spaces = name.spaces; name = name.name; token = end - 1 })) (MoreNames ∷ []) (at + 1) result }
{
    let mut spaces = Vec::new(alloc);
    let mut last = ByteText::new(alloc, lexemes.bytes(at))?;
    let mut place = at;
    'each: while sees(lexemes, Sign::ColonColon, place + 1) {
        let more = name(alloc, lexemes, place + 2)?;
        put(&mut spaces, last)?;
        last = more;
        place += 2;
    }
    let end = place + 1;
    let name = QualifiedName {
        is_global,
        spaces: Items::from_vec(spaces),
        name: last,
        token: end as u32 - 1,
    };
    Ok((name, end))
}

/// `"bool" | "int" | "unsigned" [ "int" ] | "half" | "float" | qname`
#[tactic(auto, using(crate::proofs::Ways::no_memory))]
pub fn shape(alloc: Global, lexemes: &Lexemes<'_>, at: usize) -> Result<(ShapeName, usize), Fault>
    ensures { Parses lexemes.now (IsShape lexemes.now at) (Shape ∷ []) at result }
{
    if let Some(kind) = word_shape(lexemes.kind(at)) {
        let token = at as u32;
        return Ok((ShapeName { kind, token }, at + 1));
    }
    if sees_word(lexemes, Keyword::Unsigned, at) {
        return unsigned_shape(lexemes, at);
    }
    if !begins_name(lexemes, at) {
        return Err(Fault::NotHere(at));
    }
    let (name, end) = qualified_name(alloc, lexemes, at)?;
    let shape = shape_named(alloc, name)?;
    Ok((shape, end))
}

/// The shape that a name is.
pub fn shape_named(alloc: Global, name: QualifiedName) -> Result<ShapeName, Memory>
    ensures { IfOk result (λ shape. shape ≡ record { kind = Named name; token = name.token }) }
{
    let token = name.token;
    let kind = ShapeKind::Named(Boxed::new(alloc, name)?);
    Ok(ShapeName { kind, token })
}

// The shape that one token is.
fn word_shape(kind: Option<TokenKind>) -> Option<ShapeKind>
    ensures { result ≡ shape_of_token kind }
{
    match kind? {
        TokenKind::Word(Keyword::Bool) => Some(ShapeKind::Bool),
        TokenKind::Word(Keyword::Int) => Some(ShapeKind::Int),
        TokenKind::Word(Keyword::Half) => Some(ShapeKind::Half),
        TokenKind::Word(Keyword::Float) => Some(ShapeKind::Float),
        _ => None,
    }
}

// `"unsigned" [ "int" ]`, where the first keyword stands.
fn unsigned_shape(lexemes: &Lexemes<'_>, at: usize) -> Result<(ShapeName, usize), Fault>
    requires sees { SeesWord lexemes.now at Unsigned }
    requires within { at < length lexemes.now }
    requires few { length lexemes.now ≤ TEXT_BYTES }
    ensures { Parses lexemes.now (IsShape lexemes.now at) (Shape ∷ []) at result }
{
    let kind = ShapeKind::Unsigned;
    if sees_word(lexemes, Keyword::Int, at + 1) {
        let token = at as u32 + 1;
        return Ok((ShapeName { kind, token }, at + 2));
    }
    let token = at as u32;
    Ok((ShapeName { kind, token }, at + 1))
}
