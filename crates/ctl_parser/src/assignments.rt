//! Assignments, and variables where a name may begin either.

ghost use Rattle.std.specs.Prelude.{◌≡◌, ◌+◌, ◌≤◌, ℕ, [], ◌∷◌, length};
ghost use Rattle.ctl_tree.specs.declared.sign.Sign.TheVariants.{Assign};
ghost use Rattle.ctl_tree.specs.Lexemes.{kind_at, bytes_at};
ghost use Rattle.ctl_tree.specs.Names.{IsQualifiedName};
ghost use Rattle.ctl_tree.specs.Statements.{IsAssignment, IsForStart};
ghost use Rattle.grammar_machine.specs.Machine.{move};
ghost use Rattle.grammar_machine.specs.Machine.{Symbol};
ghost use Rattle.grammar_machine.specs.Machine.Symbol.{TheSign, Operand, Steps, Assignment as AssignmentSymbol, ForStart as ForStartSymbol};
ghost use Rattle.ctl_parser_expr.specs.Parses.{Parses};
ghost use Rattle.ctl_parser.specs.PrivateParts.{IsDeclaredOrAssigned, after_name};

use crate::beginnings::{begins_word_shape, goes_on_as_place};
use ctl_base::limits::NESTING;
use ctl_parser_expr::{
    Fault, Lexemes, begins_name, expect, expr, qualified_name, sees_name, shape, shape_named,
    steps, variable,
};
use ctl_tree::{Assignment, ForStart, Place, QualifiedName, Sign};
use std::alloc::Global;

/// `place "=" expr`
#[tactic(auto, using(crate::proofs::Ways::no_memory))]
pub fn assignment(
    alloc: Global,
    lexemes: &Lexemes<'_>,
    nesting: u32,
    inner: u32,
    at: usize,
) -> Result<(Assignment, usize), Fault>
    requires shallow { nesting ≤ NESTING }
    requires inner { inner ≤ NESTING }
    ensures { Parses lexemes.now (IsAssignment lexemes.now (Some NESTING) nesting inner at) (AssignmentSymbol nesting inner ∷ []) at result }
{
    let (root, next) = qualified_name(alloc, lexemes, at)?;
    let (assignment, end) = assigned(alloc, lexemes, nesting, inner, root, next)?;
    Ok((assignment, end))
}

// `{ "[" expr "]" | "." NAME } "=" expr`, what follows the name of a place.
#[tactic(auto, using(crate::proofs::Ways::no_memory))]
fn assigned(
    alloc: Global,
    lexemes: &Lexemes<'_>,
    nesting: u32,
    inner: u32,
    root: QualifiedName,
    at: usize,
) -> Result<(Assignment, usize), Fault>
    requires shallow { nesting ≤ NESTING }
    requires inner { inner ≤ NESTING }
    requires within { at ≤ length lexemes.now }
    ensures { Parses lexemes.now (λ assignment end. (start : ℕ) → IsQualifiedName lexemes.now start root at → IsAssignment lexemes.now (Some NESTING) nesting inner start assignment end) (Steps nesting ∷ TheSign Assign ∷ Operand 0 inner ∷ []) at result }
{
    let (steps, equals) = steps(alloc, lexemes, nesting, at)?;
    expect(lexemes, Sign::Assign, equals)?;
    let (value, end) = expr(alloc, lexemes, inner, equals + 1)?;
    let token = equals as u32;
    let place = Place { root, steps };
    let assignment = Assignment {
        place,
        value,
        token,
    };
    Ok((assignment, end))
}

/// `variable | assign ";"`, of which a qualified name has been read.
#[tactic(auto, using(crate::proofs::Ways::no_memory))]
pub fn declared_or_assigned(
    alloc: Global,
    lexemes: &Lexemes<'_>,
    nesting: u32,
    inner: u32,
    name: QualifiedName,
    at: usize,
) -> Result<(ForStart, usize), Fault>
    requires shallow { nesting ≤ NESTING }
    requires inner { inner ≤ NESTING }
    requires within { at ≤ length lexemes.now }
    ensures { (x : Symbol) → move x (kind_at lexemes.now at) (bytes_at lexemes.now at) ≡ after_name nesting inner (kind_at lexemes.now at) → Parses lexemes.now (λ form end. (start : ℕ) → IsQualifiedName lexemes.now start name at → IsDeclaredOrAssigned lexemes.now (Some NESTING) nesting inner start form end) (x ∷ []) at result }
{
    if sees_name(lexemes, at) {
        let shape = shape_named(alloc, name)?;
        let (variable, end) = variable(alloc, lexemes, nesting, inner, shape, at)?;
        return Ok((ForStart::Variable(variable), end));
    }
    if !goes_on_as_place(lexemes.kind(at)) {
        return Err(Fault::NotHere(at));
    }
    let (assignment, last) = assigned(alloc, lexemes, nesting, inner, name, at)?;
    expect(lexemes, Sign::Semicolon, last)?;
    Ok((ForStart::Assignment(assignment), last + 1))
}

/// `variable | assign ";"`, in the head of a `for`, where each expression is nested one deeper.
#[tactic(auto, using(crate::proofs::Ways::no_memory))]
pub fn for_start(
    alloc: Global,
    lexemes: &Lexemes<'_>,
    nesting: u32,
    at: usize,
) -> Result<(ForStart, usize), Fault>
    requires { nesting + 1 ≤ NESTING }
    ensures { Parses lexemes.now (IsForStart lexemes.now (Some NESTING) nesting at) (ForStartSymbol nesting ∷ []) at result }
{
    if begins_name(lexemes, at) {
        let (name, next) = qualified_name(alloc, lexemes, at)?;
        let (start, end) = declared_or_assigned(alloc, lexemes, nesting, nesting + 1, name, next)?;
        return Ok((start, end));
    }
    if !begins_word_shape(lexemes.kind(at)) {
        return Err(Fault::NotHere(at));
    }
    let (shape, next) = shape(alloc, lexemes, at)?;
    let (variable, end) = variable(alloc, lexemes, nesting, nesting + 1, shape, next)?;
    Ok((ForStart::Variable(variable), end))
}
