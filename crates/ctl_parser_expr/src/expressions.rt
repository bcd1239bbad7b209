//! Expressions.

ghost use Rattle.std.specs.Prelude.{◌≡◌, ◌+◌, ◌<◌, ◌≤◌, ℕ, [], ◌∷◌, length, Some, IsSome};
ghost use Rattle.ctl_tree.specs.declared.expression.Expr.TheVariants.{Chain as ChainForm};
ghost use Rattle.ctl_tree.specs.Lexemes.{kind_at};
ghost use Rattle.ctl_tree.specs.Names.{operator_of, operator_levels};
ghost use Rattle.ctl_tree.specs.Expressions.{IsExpr, IsOperand, IsUnary, IsPostfix, AreSteps, IsPrimary, AreArguments};
ghost use Rattle.grammar_machine.specs.Machine.Symbol.{QualifiedName as QualifiedNameSymbol, Operand, Links, UnaryForm, Postfix, Steps, Primary, CallOrName, Arguments};
ghost use Rattle.ctl_parser_expr.specs.Parses.{Parses, ParsesAny};

use crate::fault::Fault;
use crate::lexemes::Lexemes;
use crate::lists::put;
use crate::marks::{allow_deeper, begins_name, expect, name, sees};
use crate::names::qualified_name;
use crate::operators::{
    LEVELS, begins_expr, level_between, literal_value, operator, unary_operator,
};
use ctl_base::limits::{NESTING, TEXT_BYTES};
use ctl_tree::{Call, Chain, Expr, FieldAccess, Index, Link, Literal, Path, Sign, Step, Unary};
use sqlite_items::{Boxed, Items};
use std::alloc::Global;

/// An expression: a chain over the levels of operators.
#[cycle(expression)]
pub fn expr(
    alloc: Global,
    lexemes: &Lexemes<'_>,
    nesting: u32,
    at: usize,
) -> Result<(Expr, usize), Fault>
    requires { nesting ≤ NESTING }
    ensures { Parses lexemes.now (IsExpr lexemes.now (Some NESTING) nesting at) (Operand 0 nesting ∷ []) at result }
{
    operand(alloc, lexemes, 0, nesting, at)
}

// An operand of a level: a unary form, or the loosest of the chains that begin with it, each the first operand of the
// next.
#[cycle(expression)]
#[tactic(auto, using(crate::proofs::Ways::no_memory))]
fn operand(
    alloc: Global,
    lexemes: &Lexemes<'_>,
    level: u32,
    nesting: u32,
    at: usize,
) -> Result<(Expr, usize), Fault>
    requires shallow { nesting ≤ NESTING }
    requires levelled { level ≤ operator_levels }
    ensures { Parses lexemes.now (IsOperand lexemes.now (Some NESTING) level nesting at) (Operand level nesting ∷ []) at result }
{
    let (mut form, mut next) = unary(alloc, lexemes, nesting, at)?;
    let mut tight = LEVELS;
    'climb: while let Some(looser) = level_between(level, tight, lexemes.kind(next)) {
        let (chain, end) = chain(alloc, lexemes, looser, nesting, form, next)?;
        form = Expr::Chain(chain);
        next = end;
        tight = looser;
    }
    Ok((form, next))
}

// A chain of a level, of which the first operand has been read and the first operator stands.
#[cycle(expression)]
#[tactic(auto, using(crate::proofs::Ways::no_memory))]
fn chain(
    alloc: Global,
    lexemes: &Lexemes<'_>,
    level: u32,
    nesting: u32,
    first: Expr,
    at: usize,
) -> Result<(Chain, usize), Fault>
    requires shallow { nesting ≤ NESTING }
    requires levelled { level < operator_levels }
    requires sees { IsSome (operator_of level (kind_at lexemes.now at)) }
    requires within { at ≤ length lexemes.now }
    requires few { length lexemes.now ≤ TEXT_BYTES }
    ensures { Parses lexemes.now (λ chain end. (start : ℕ) → IsOperand lexemes.now (Some NESTING) (level + 1) nesting start first at → IsOperand lexemes.now (Some NESTING) level nesting start (ChainForm chain) end) (Links level nesting ∷ []) at result }
{
    let first = Boxed::new(alloc, first)?;
    let mut links = Vec::new(alloc);
    let mut token = 0;
    let mut next = at;
    'each: while let Some(operator) = operator(level, lexemes.kind(next)) {
        token = next as u32;
        let (operand, after) = operand(alloc, lexemes, level + 1, nesting, next + 1)?;
        put(
            &mut links,
            Link {
                operator,
                operand,
                token,
            },
        )?;
        next = after;
    }
    let links = Items::from_vec(links);
    Ok((
        Chain {
            first,
            links,
            token,
        },
        next,
    ))
}

// `{ "-" | "+" | "!" | "~" } postfix`
#[cycle(expression)]
#[tactic(auto, using(crate::proofs::Ways::no_memory))]
fn unary(
    alloc: Global,
    lexemes: &Lexemes<'_>,
    nesting: u32,
    at: usize,
) -> Result<(Expr, usize), Fault>
    requires { nesting ≤ NESTING }
    ensures { Parses lexemes.now (IsUnary lexemes.now (Some NESTING) nesting at) (UnaryForm nesting ∷ []) at result }
{
    let Some(operator) = unary_operator(lexemes.kind(at)) else {
        return postfix(alloc, lexemes, nesting, at);
    };
    allow_deeper(nesting, at)?;
    let (operand, end) = unary(alloc, lexemes, nesting + 1, at + 1)?;
    let operand = Boxed::new(alloc, operand)?;
    let token = at as u32;
    let unary = Unary {
        operator,
        operand,
        token,
    };
    Ok((Expr::Unary(unary), end))
}

// `primary { "[" expr "]" | "." NAME }`
#[cycle(expression)]
#[tactic(auto, using(crate::proofs::Ways::no_memory))]
fn postfix(
    alloc: Global,
    lexemes: &Lexemes<'_>,
    nesting: u32,
    at: usize,
) -> Result<(Expr, usize), Fault>
    requires { nesting ≤ NESTING }
    ensures { Parses lexemes.now (IsPostfix lexemes.now (Some NESTING) nesting at) (Postfix nesting ∷ []) at result }
{
    let (root, next) = primary(alloc, lexemes, nesting, at)?;
    let (steps, end) = steps(alloc, lexemes, nesting, next)?;
    if steps.is_empty() {
        return Ok((root, end));
    }
    let root = Boxed::new(alloc, root)?;
    Ok((Expr::Path(Path { root, steps }), end))
}

/// `{ "[" expr "]" | "." NAME }`
#[cycle(expression)]
#[tactic(auto, using(crate::proofs::Ways::no_memory))]
pub fn steps(
    alloc: Global,
    lexemes: &Lexemes<'_>,
    nesting: u32,
    at: usize,
) -> Result<(Items<Step>, usize), Fault>
    requires shallow { nesting ≤ NESTING }
    requires within { at ≤ length lexemes.now }
    ensures { ParsesAny lexemes.now (AreSteps lexemes.now (Some NESTING) nesting at) (Steps nesting ∷ []) at result }
{
    let mut steps = Vec::new(alloc);
    let mut next = at;
    'each: loop {
        if sees(lexemes, Sign::Dot, next) {
            let name = name(alloc, lexemes, next + 1)?;
            let token = next as u32 + 1;
            put(&mut steps, Step::Field(FieldAccess { name, token }))?;
            next += 2;
        } else if sees(lexemes, Sign::OpenSquare, next) {
            allow_deeper(nesting, next)?;
            let (index, close) = expr(alloc, lexemes, nesting + 1, next + 1)?;
            expect(lexemes, Sign::CloseSquare, close)?;
            let token = next as u32;
            put(&mut steps, Step::Index(Index { index, token }))?;
            next = close + 1;
        } else {
            return Ok((Items::from_vec(steps), next));
        }
    }
}

// `WHOLE | POINT | HALF | "true" | "false" | qname | call | "(" expr ")"`
#[cycle(expression)]
#[tactic(auto, using(crate::proofs::Ways::no_memory))]
fn primary(
    alloc: Global,
    lexemes: &Lexemes<'_>,
    nesting: u32,
    at: usize,
) -> Result<(Expr, usize), Fault>
    requires { nesting ≤ NESTING }
    ensures { Parses lexemes.now (IsPrimary lexemes.now (Some NESTING) nesting at) (Primary nesting ∷ []) at result }
{
    if let Some(value) = literal_value(lexemes.kind(at)) {
        let token = at as u32;
        return Ok((Expr::Literal(Literal { value, token }), at + 1));
    }
    if begins_name(lexemes, at) {
        return named(alloc, lexemes, nesting, at);
    }
    if !sees(lexemes, Sign::OpenRound, at) {
        return Err(Fault::NotHere(at));
    }
    allow_deeper(nesting, at)?;
    let (inside, close) = expr(alloc, lexemes, nesting + 1, at + 1)?;
    expect(lexemes, Sign::CloseRound, close)?;
    Ok((inside, close + 1))
}

// `qname | call`, where one begins.
#[cycle(expression)]
#[tactic(auto, using(crate::proofs::Ways::no_memory))]
fn named(
    alloc: Global,
    lexemes: &Lexemes<'_>,
    nesting: u32,
    at: usize,
) -> Result<(Expr, usize), Fault>
    requires { nesting ≤ NESTING }
    ensures { Parses lexemes.now (IsPrimary lexemes.now (Some NESTING) nesting at) (QualifiedNameSymbol ∷ CallOrName nesting ∷ []) at result }
{
    let (name, bracket) = qualified_name(alloc, lexemes, at)?;
    if !sees(lexemes, Sign::OpenRound, bracket) {
        return Ok((Expr::Name(name), bracket));
    }
    let (arguments, end) = arguments(alloc, lexemes, nesting, bracket + 1)?;
    let token = bracket as u32;
    let call = Boxed::new(
        alloc,
        Call {
            name,
            arguments,
            token,
        },
    )?;
    Ok((Expr::Call(call), end))
}

/// `[ expr { "," expr } ] ")"`
#[cycle(expression)]
#[tactic(auto, using(crate::proofs::Ways::no_memory))]
pub fn arguments(
    alloc: Global,
    lexemes: &Lexemes<'_>,
    nesting: u32,
    at: usize,
) -> Result<(Items<Expr>, usize), Fault>
    requires { nesting ≤ NESTING }
    ensures { Parses lexemes.now (AreArguments lexemes.now (Some NESTING) nesting at) (Arguments nesting ∷ []) at result }
{
    if sees(lexemes, Sign::CloseRound, at) {
        return Ok((Items::new(alloc), at + 1));
    }
    if !begins_expr(lexemes.kind(at)) {
        return Err(Fault::NotHere(at));
    }
    allow_deeper(nesting, at)?;
    let (first, mut next) = expr(alloc, lexemes, nesting + 1, at)?;
    let mut arguments = Vec::new(alloc);
    put(&mut arguments, first)?;
    'each: while sees(lexemes, Sign::Comma, next) {
        let (more, after) = expr(alloc, lexemes, nesting + 1, next + 1)?;
        put(&mut arguments, more)?;
        next = after;
    }
    if !sees(lexemes, Sign::CloseRound, next) {
        return Err(Fault::NotHere(next));
    }
    Ok((Items::from_vec(arguments), next + 1))
}
