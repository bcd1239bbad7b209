//! Sizes, initialisers, constants and variables.

ghost use Rattle.std.specs.Prelude.{◌≡◌, ◌+◌, ◌<◌, ◌≤◌, ℕ, List, [], ◌∷◌, length, Some};
ghost use Rattle.ctl_tree.specs.declared.keyword.Keyword.TheVariants.{Const};
ghost use Rattle.ctl_tree.specs.declared.sign.Sign.TheVariants.{OpenSquare, OpenCurly, Assign, Semicolon};
ghost use Rattle.ctl_tree.specs.declared.declaration.ArraySize.{ArraySize as ArraySizeForm};
ghost use Rattle.ctl_tree.specs.declared.declaration.Initialiser.TheVariants.{List as ListForm};
ghost use Rattle.ctl_tree.specs.Lexemes.{SeesSign, SeesWord};
ghost use Rattle.ctl_tree.specs.Names.{IsShape};
ghost use Rattle.ctl_tree.specs.Declarations.{AreSizes, AreArraySizes, IsInitialiser, IsValue, IsConstant, IsVariable};
ghost use Rattle.grammar_machine.specs.Machine.{variable_end};
ghost use Rattle.grammar_machine.specs.Machine.Symbol.{TheSign, TheName, Shape, Sizes, ArraySizes, ArraySize as ArraySizeSymbol, Initialiser as InitialiserSymbol, MoreElements, Value};
ghost use Rattle.ctl_parser_expr.specs.Parses.{Parses, ParsesAny};

use crate::expressions::expr;
use crate::fault::Fault;
use crate::lexemes::Lexemes;
use crate::lists::put;
use crate::marks::{allow_deeper, expect, name, sees};
use crate::names::shape;
use crate::operators::begins_expr;
use ctl_base::limits::{NESTING, TEXT_BYTES};
use ctl_tree::{ArraySize, BraceList, Constant, Initialiser, ShapeName, Sign, Variable};
use sqlite_items::Items;
use std::alloc::Global;

/// `{ "[" expr "]" }`
#[tactic(auto, using(crate::proofs::Ways::no_memory))]
pub fn sizes(
    alloc: Global,
    lexemes: &Lexemes<'_>,
    nesting: u32,
    at: usize,
) -> Result<(Items<ArraySize>, usize), Fault>
    requires shallow { nesting ≤ NESTING }
    requires within { at ≤ length lexemes.now }
    ensures { ParsesAny lexemes.now (AreSizes lexemes.now (Some NESTING) nesting at) (Sizes nesting ∷ []) at result }
{
    let mut sizes = Vec::new(alloc);
    let mut next = at;
    'each: while sees(lexemes, Sign::OpenSquare, next) {
        allow_deeper(nesting, next)?;
        let (size, close) = expr(alloc, lexemes, nesting + 1, next + 1)?;
        expect(lexemes, Sign::CloseSquare, close)?;
        let size = Some(size);
        let token = next as u32;
        put(&mut sizes, ArraySize { size, token })?;
        next = close + 1;
    }
    Ok((Items::from_vec(sizes), next))
}

/// `{ "[" [ expr ] "]" }`
#[tactic(auto, using(crate::proofs::Ways::no_memory))]
pub fn array_sizes(
    alloc: Global,
    lexemes: &Lexemes<'_>,
    nesting: u32,
    at: usize,
) -> Result<(Items<ArraySize>, usize), Fault>
    requires shallow { nesting ≤ NESTING }
    requires within { at ≤ length lexemes.now }
    ensures { ParsesAny lexemes.now (AreArraySizes lexemes.now (Some NESTING) nesting at) (ArraySizes nesting ∷ []) at result }
{
    let mut sizes = Vec::new(alloc);
    let mut next = at;
    'each: while sees(lexemes, Sign::OpenSquare, next) {
        let (size, after) = array_size(alloc, lexemes, nesting, next)?;
        put(&mut sizes, size)?;
        next = after;
    }
    Ok((Items::from_vec(sizes), next))
}

// `"[" [ expr ] "]"`, where the first bracket stands.
#[tactic(auto, using(crate::proofs::Ways::no_memory))]
fn array_size(
    alloc: Global,
    lexemes: &Lexemes<'_>,
    nesting: u32,
    at: usize,
) -> Result<(ArraySize, usize), Fault>
    requires shallow { nesting ≤ NESTING }
    requires sees { SeesSign lexemes.now at OpenSquare }
    requires within { at < length lexemes.now }
    requires few { length lexemes.now ≤ TEXT_BYTES }
    ensures { Parses lexemes.now (λ size end. (more : List ArraySizeForm) (after : ℕ) → AreArraySizes lexemes.now (Some NESTING) nesting end more after → AreArraySizes lexemes.now (Some NESTING) nesting at (size ∷ more) after) (ArraySizeSymbol nesting ∷ []) (at + 1) result }
{
    let token = at as u32;
    if sees(lexemes, Sign::CloseSquare, at + 1) {
        return Ok((ArraySize { size: None, token }, at + 2));
    }
    if !begins_expr(lexemes.kind(at + 1)) {
        return Err(Fault::NotHere(at + 1));
    }
    allow_deeper(nesting, at + 1)?;
    let (size, close) = expr(alloc, lexemes, nesting + 1, at + 1)?;
    expect(lexemes, Sign::CloseSquare, close)?;
    let size = Some(size);
    Ok((ArraySize { size, token }, close + 1))
}

// `expr | "{" init { "," init } "}"`: a brace list has the nesting, an expression in its place
// the inner one.
#[cycle(initialiser)]
#[tactic(auto, using(crate::proofs::Ways::no_memory))]
fn initialiser(
    alloc: Global,
    lexemes: &Lexemes<'_>,
    nesting: u32,
    inner: u32,
    at: usize,
) -> Result<(Initialiser, usize), Fault>
    requires shallow { nesting ≤ NESTING }
    requires inner { inner ≤ NESTING }
    ensures { Parses lexemes.now (IsInitialiser lexemes.now (Some NESTING) nesting inner at) (InitialiserSymbol nesting inner ∷ []) at result }
{
    if !sees(lexemes, Sign::OpenCurly, at) {
        let (value, end) = expr(alloc, lexemes, inner, at)?;
        return Ok((Initialiser::Expr(value), end));
    }
    allow_deeper(nesting, at)?;
    let (list, end) = brace_list(alloc, lexemes, nesting, at)?;
    Ok((Initialiser::List(list), end))
}

// `"{" init { "," init } "}"`, where the first bracket stands: an element is nested one deeper than the list.
#[cycle(initialiser)]
#[tactic(auto, using(crate::proofs::Ways::no_memory))]
fn brace_list(
    alloc: Global,
    lexemes: &Lexemes<'_>,
    nesting: u32,
    at: usize,
) -> Result<(BraceList, usize), Fault>
    requires shallow { nesting + 1 ≤ NESTING }
    requires sees { SeesSign lexemes.now at OpenCurly }
    requires within { at < length lexemes.now }
    requires few { length lexemes.now ≤ TEXT_BYTES }
    ensures { Parses lexemes.now (λ list end. (inner : ℕ) → IsInitialiser lexemes.now (Some NESTING) nesting inner at (ListForm list) end) (InitialiserSymbol (nesting + 1) (nesting + 1) ∷ MoreElements nesting ∷ []) (at + 1) result }
{
    let mut elements = Vec::new(alloc);
    let (first, mut next) = initialiser(alloc, lexemes, nesting + 1, nesting + 1, at + 1)?;
    put(&mut elements, first)?;
    'each: while sees(lexemes, Sign::Comma, next) {
        let (more, after) = initialiser(alloc, lexemes, nesting + 1, nesting + 1, next + 1)?;
        put(&mut elements, more)?;
        next = after;
    }
    if !sees(lexemes, Sign::CloseCurly, next) {
        return Err(Fault::NotHere(next));
    }
    let elements = Items::from_vec(elements);
    let token = at as u32;
    Ok((BraceList { elements, token }, next + 1))
}

/// `[ "=" init ]`
#[tactic(auto, using(crate::proofs::Ways::no_memory))]
pub fn value(
    alloc: Global,
    lexemes: &Lexemes<'_>,
    nesting: u32,
    inner: u32,
    at: usize,
) -> Result<(Option<Initialiser>, usize), Fault>
    requires shallow { nesting ≤ NESTING }
    requires inner { inner ≤ NESTING }
    requires within { at ≤ length lexemes.now }
    ensures { ParsesAny lexemes.now (IsValue lexemes.now (Some NESTING) nesting inner at) (Value nesting inner ∷ []) at result }
{
    if !sees(lexemes, Sign::Assign, at) {
        return Ok((None, at));
    }
    let (value, end) = initialiser(alloc, lexemes, nesting, inner, at + 1)?;
    Ok((Some(value), end))
}

/// `"const" shape NAME { "[" [ expr ] "]" } "=" init ";"`, where the keyword stands.
#[tactic(auto, using(crate::proofs::Ways::no_memory))]
pub fn constant(
    alloc: Global,
    lexemes: &Lexemes<'_>,
    nesting: u32,
    at: usize,
) -> Result<(Constant, usize), Fault>
    requires shallow { nesting ≤ NESTING }
    requires sees { SeesWord lexemes.now at Const }
    requires within { at < length lexemes.now }
    requires few { length lexemes.now ≤ TEXT_BYTES }
    ensures { Parses lexemes.now (IsConstant lexemes.now (Some NESTING) nesting at) (Shape ∷ TheName ∷ ArraySizes nesting ∷ TheSign Assign ∷ InitialiserSymbol nesting nesting ∷ TheSign Semicolon ∷ []) (at + 1) result }
{
    let (shape, place) = shape(alloc, lexemes, at + 1)?;
    let name = name(alloc, lexemes, place)?;
    let (sizes, equals) = array_sizes(alloc, lexemes, nesting, place + 1)?;
    expect(lexemes, Sign::Assign, equals)?;
    let (value, last) = initialiser(alloc, lexemes, nesting, nesting, equals + 1)?;
    expect(lexemes, Sign::Semicolon, last)?;
    let token = place as u32;
    let constant = Constant {
        shape,
        name,
        sizes,
        value,
        token,
    };
    Ok((constant, last + 1))
}

/// `NAME { "[" [ expr ] "]" } [ "=" init ] ";"`, what follows the shape of a variable.
#[tactic(auto, using(crate::proofs::Ways::no_memory))]
pub fn variable(
    alloc: Global,
    lexemes: &Lexemes<'_>,
    nesting: u32,
    inner: u32,
    shape: ShapeName,
    at: usize,
) -> Result<(Variable, usize), Fault>
    requires shallow { nesting ≤ NESTING }
    requires inner { inner ≤ NESTING }
    ensures { Parses lexemes.now (λ variable end. (start : ℕ) → IsShape lexemes.now start shape at → IsVariable lexemes.now (Some NESTING) nesting inner start variable end) (TheName ∷ variable_end nesting inner) at result }
{
    let name = name(alloc, lexemes, at)?;
    let (sizes, next) = array_sizes(alloc, lexemes, nesting, at + 1)?;
    let (value, last) = value(alloc, lexemes, nesting, inner, next)?;
    expect(lexemes, Sign::Semicolon, last)?;
    let token = at as u32;
    let variable = Variable {
        shape,
        name,
        sizes,
        value,
        token,
    };
    Ok((variable, last + 1))
}
