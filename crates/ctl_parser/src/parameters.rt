//! Parameters of functions.

ghost use Rattle.std.specs.Prelude.{◌≡◌, ◌+◌, ◌<◌, ◌≤◌, List, [], ◌∷◌, length, Some, None, IfSome};
ghost use Rattle.ctl_tree.specs.Lexemes.{kind_at};
ghost use Rattle.ctl_tree.specs.Modules.{AreQualifiers, IsParameter, AreParameters, direction_of, level_of};
ghost use Rattle.grammar_machine.specs.Machine.{Symbol};
ghost use Rattle.grammar_machine.specs.Machine.Symbol.{Qualifiers, Parameter as ParameterSymbol, Parameters};
ghost use Rattle.ctl_parser_expr.specs.Parses.{Parses, Comes, At};

use ctl_base::limits::{NESTING, TEXT_BYTES};
use ctl_parser_expr::{Fault, Lexemes, array_sizes, name, put, sees, shape, value};
use ctl_tree::{Direction, Keyword, Level, Parameter, Sign, TokenKind};
use sqlite_items::Items;
use std::alloc::Global;

// The direction that the token at a place is.
fn direction(lexemes: &Lexemes<'_>, at: usize) -> Option<Direction>
    ensures exact { result ≡ direction_of (kind_at lexemes.now at) }
    ensures within { IfSome result (λ _. at < length lexemes.now) }
    ensures few { length lexemes.now ≤ TEXT_BYTES }
{
    match lexemes.kind(at) {
        Some(TokenKind::Word(Keyword::Input)) => Some(Direction::Input),
        Some(TokenKind::Word(Keyword::Output)) => Some(Direction::Output),
        _ => None,
    }
}

// The level that the token at a place is.
fn level(lexemes: &Lexemes<'_>, at: usize) -> Option<Level>
    ensures exact { result ≡ level_of (kind_at lexemes.now at) }
    ensures within { IfSome result (λ _. at < length lexemes.now) }
    ensures few { length lexemes.now ≤ TEXT_BYTES }
{
    match lexemes.kind(at) {
        Some(TokenKind::Word(Keyword::Uniform)) => Some(Level::Uniform),
        Some(TokenKind::Word(Keyword::Varying)) => Some(Level::Varying),
        _ => None,
    }
}

// `[ io ] [ level ] | level io`
fn qualifiers(lexemes: &Lexemes<'_>, at: usize) -> (Option<Direction>, Option<Level>, usize)
    ensures spells { AreQualifiers lexemes.now at result.0 result.1 result.2 }
    ensures ends { at ≤ result.2 }
    ensures passes { (below : List Symbol) → Comes lexemes.now (Some NESTING) (Qualifiers ∷ below) at (At below result.2) }
{
    if let Some(direction) = direction(lexemes, at) {
        if let Some(level) = level(lexemes, at + 1) {
            return (Some(direction), Some(level), at + 2);
        }
        return (Some(direction), None, at + 1);
    }
    if let Some(level) = level(lexemes, at) {
        if let Some(direction) = direction(lexemes, at + 1) {
            return (Some(direction), Some(level), at + 2);
        }
        return (None, Some(level), at + 1);
    }
    (None, None, at)
}

// `quals shape NAME { "[" [ expr ] "]" } [ "=" init ]`
#[tactic(auto, using(crate::proofs::Ways::no_memory))]
fn parameter(
    alloc: Global,
    lexemes: &Lexemes<'_>,
    nesting: u32,
    at: usize,
) -> Result<(Parameter, usize), Fault>
    requires { nesting ≤ NESTING }
    ensures { Parses lexemes.now (IsParameter lexemes.now (Some NESTING) nesting at) (ParameterSymbol nesting ∷ []) at result }
{
    let (direction, level, begin) = qualifiers(lexemes, at);
    let (shape, place) = shape(alloc, lexemes, begin)?;
    let name = name(alloc, lexemes, place)?;
    let (sizes, next) = array_sizes(alloc, lexemes, nesting, place + 1)?;
    let (value, end) = value(alloc, lexemes, nesting, nesting, next)?;
    let token = place as u32;
    let parameter = Parameter {
        direction,
        level,
        shape,
        name,
        sizes,
        value,
        token,
    };
    Ok((parameter, end))
}

/// `[ param { "," param } ] ")"`
#[tactic(auto, using(crate::proofs::Ways::no_memory))]
pub fn parameters(
    alloc: Global,
    lexemes: &Lexemes<'_>,
    nesting: u32,
    at: usize,
) -> Result<(Items<Parameter>, usize), Fault>
    requires { nesting ≤ NESTING }
    ensures { Parses lexemes.now (AreParameters lexemes.now (Some NESTING) nesting at) (Parameters nesting ∷ []) at result }
{
    if sees(lexemes, Sign::CloseRound, at) {
        return Ok((Items::new(alloc), at + 1));
    }
    let (first, mut next) = parameter(alloc, lexemes, nesting, at)?;
    let mut parameters = Vec::new(alloc);
    put(&mut parameters, first)?;
    'each: while sees(lexemes, Sign::Comma, next) {
        let (more, after) = parameter(alloc, lexemes, nesting, next + 1)?;
        put(&mut parameters, more)?;
        next = after;
    }
    if !sees(lexemes, Sign::CloseRound, next) {
        return Err(Fault::NotHere(next));
    }
    Ok((Items::from_vec(parameters), next + 1))
}
