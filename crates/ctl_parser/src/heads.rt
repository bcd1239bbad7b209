//! What stands before the statement that a test or a `for` governs.

ghost use Rattle.std.specs.Prelude.{◌≡◌, ◌+◌, ◌≤◌, [], ◌∷◌, true};
ghost use Rattle.ctl_tree.specs.declared.sign.Sign.TheVariants.{OpenRound, CloseRound, Semicolon};
ghost use Rattle.grammar_machine.specs.Front.{is_sign};
ghost use Rattle.grammar_machine.specs.Machine.Symbol.{TheSign, Operand, Assignment as AssignmentSymbol, ForStart as ForStartSymbol};
ghost use Rattle.ctl_parser_expr.specs.Parses.{Parses};
ghost use Rattle.ctl_parser.specs.Heads.{IsExprBefore, IsForRest, IsForHead};

use crate::assignments::{assignment, for_start};
use ctl_base::limits::NESTING;
use ctl_parser_expr::{Fault, Lexemes, expect, expr};
use ctl_tree::{Assignment, Expr, ForStart, Sign};
use std::alloc::Global;

/// The head of a `for`.
#[derive(Drop)]
pub struct ForHead {
    pub start: ForStart,
    pub test: Expr,
    pub next: Assignment,
}

/// What follows the start in the head of a `for`.
#[derive(Drop)]
pub struct ForRest {
    pub test: Expr,
    pub next: Assignment,
}

/// `expr`, and the sign after it.
#[tactic(auto, using(crate::proofs::Ways::no_memory))]
pub fn expr_before(
    alloc: Global,
    lexemes: &Lexemes<'_>,
    sign: Sign,
    nesting: u32,
    at: usize,
) -> Result<(Expr, usize), Fault>
    requires shallow { nesting ≤ NESTING }
    requires known { is_sign sign sign ≡ true }
    ensures { Parses lexemes.now (IsExprBefore lexemes.now sign nesting at) (Operand 0 nesting ∷ TheSign sign ∷ []) at result }
{
    let (value, last) = expr(alloc, lexemes, nesting, at)?;
    expect(lexemes, sign, last)?;
    Ok((value, last + 1))
}

/// `"(" ( variable | assign ";" ) expr ";" assign ")"`, where each expression is nested one deeper.
#[tactic(auto, using(crate::proofs::Ways::no_memory))]
pub fn for_head(
    alloc: Global,
    lexemes: &Lexemes<'_>,
    nesting: u32,
    at: usize,
) -> Result<(ForHead, usize), Fault>
    requires { nesting + 1 ≤ NESTING }
    ensures { Parses lexemes.now (IsForHead lexemes.now nesting at) (TheSign OpenRound ∷ ForStartSymbol nesting ∷ Operand 0 (nesting + 1) ∷ TheSign Semicolon ∷ AssignmentSymbol nesting (nesting + 1) ∷ TheSign CloseRound ∷ []) at result }
{
    expect(lexemes, Sign::OpenRound, at)?;
    let (start, tested) = for_start(alloc, lexemes, nesting, at + 1)?;
    let (rest, end) = for_rest(alloc, lexemes, nesting, tested)?;
    let ForRest { test, next } = rest;
    Ok((ForHead { start, test, next }, end))
}

// `expr ";" assign ")"`
#[tactic(auto, using(crate::proofs::Ways::no_memory))]
fn for_rest(
    alloc: Global,
    lexemes: &Lexemes<'_>,
    nesting: u32,
    at: usize,
) -> Result<(ForRest, usize), Fault>
    requires { nesting + 1 ≤ NESTING }
    ensures { Parses lexemes.now (IsForRest lexemes.now nesting at) (Operand 0 (nesting + 1) ∷ TheSign Semicolon ∷ AssignmentSymbol nesting (nesting + 1) ∷ TheSign CloseRound ∷ []) at result }
{
    let (test, from) = expr_before(alloc, lexemes, Sign::Semicolon, nesting + 1, at)?;
    let (next, close) = assignment(alloc, lexemes, nesting, nesting + 1, from)?;
    expect(lexemes, Sign::CloseRound, close)?;
    Ok((ForRest { test, next }, close + 1))
}
