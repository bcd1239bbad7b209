//! Statements.

ghost use Rattle.std.specs.Prelude.{◌≡◌, ◌+◌, ◌<◌, ◌≤◌, [], ◌∷◌, length, true, ℕ};
ghost use Rattle.ctl_tree.specs.declared.keyword.Keyword.TheVariants.{If as IfWord, While as WhileWord, For as ForWord, Return as ReturnWord, Print as PrintWord};
ghost use Rattle.ctl_tree.specs.declared.sign.Sign.TheVariants.{OpenRound, Semicolon};
ghost use Rattle.ctl_tree.specs.Lexemes.{kind_at, SeesSign, SeesWord};
ghost use Rattle.ctl_tree.specs.Names.{IsQualifiedName};
ghost use Rattle.ctl_tree.specs.Statements.{IsItem, AreMoreItems, IsStatement, IsBlock, AreStatements, IsArm};
ghost use Rattle.grammar_machine.specs.Front.{begins_word_shape as word_shape_begins};
ghost use Rattle.grammar_machine.specs.Machine.{variable_end};
ghost use Rattle.grammar_machine.specs.Machine.Symbol.{TheSign, TheName, QualifiedName as QualifiedNameSymbol, Shape, Arguments, Block as BlockSymbol, Statements, Statement as StatementSymbol, AfterName, Arm as ArmSymbol, Elses, ReturnValue, Item, MoreItems};
ghost use Rattle.ctl_parser_expr.specs.Parses.{Parses};
ghost use Rattle.ctl_parser.specs.PrivateParts.{Several, AreArms, IsOther};

use crate::assignments::{assignment, declared_or_assigned, for_start};
use crate::beginnings::{begins_statement, begins_word_shape};
use crate::heads::{ForHead, expr_before, for_head};
use crate::texts::text_of;
use ctl_base::limits::{NESTING, TEXT_BYTES};
use ctl_parser_expr::{
    Fault, Lexemes, allow_deeper, arguments, begins_expr, begins_name, constant, expect, expr, put,
    qualified_name, sees, sees_text, sees_word, shape, variable,
};
use ctl_tree::{
    Arm, Block, Call, Empty, For, ForStart, If, Keyword, Print, PrintItem, PrintText,
    QualifiedName, Return, Sign, Statement, While,
};
use sqlite_items::{Boxed, Items};
use std::alloc::Global;

// `variable | assign ";" | call ";"`, where a qualified name begins.
#[tactic(auto, using(crate::proofs::Ways::no_memory))]
fn named_statement(
    alloc: Global,
    lexemes: &Lexemes<'_>,
    nesting: u32,
    at: usize,
) -> Result<(Statement, usize), Fault>
    requires { nesting ≤ NESTING }
    ensures { Parses lexemes.now (IsStatement lexemes.now (Some NESTING) nesting at) (QualifiedNameSymbol ∷ AfterName nesting ∷ []) at result }
{
    let (name, next) = qualified_name(alloc, lexemes, at)?;
    if sees(lexemes, Sign::OpenRound, next) {
        return call_statement(alloc, lexemes, nesting, name, at, next);
    }
    let (form, end) = declared_or_assigned(alloc, lexemes, nesting, nesting, name, next)?;
    match form {
        ForStart::Variable(variable) => {
            let boxed = Boxed::new(alloc, variable)?;
            Ok((Statement::Variable(boxed), end))
        }
        ForStart::Assignment(assignment) => {
            let boxed = Boxed::new(alloc, assignment)?;
            Ok((Statement::Assignment(boxed), end))
        }
    }
}

// `call ";"`, where its name has been read and its bracket stands.
#[tactic(auto, using(crate::proofs::Ways::no_memory))]
fn call_statement(
    alloc: Global,
    lexemes: &Lexemes<'_>,
    nesting: u32,
    name: QualifiedName,
    at: usize,
    bracket: usize,
) -> Result<(Statement, usize), Fault>
    requires shallow { nesting ≤ NESTING }
    requires named { IsQualifiedName lexemes.now at name bracket }
    requires sees { SeesSign lexemes.now bracket OpenRound }
    requires within { bracket < length lexemes.now }
    requires few { length lexemes.now ≤ TEXT_BYTES }
    ensures { Parses lexemes.now (IsStatement lexemes.now (Some NESTING) nesting at) (Arguments nesting ∷ TheSign Semicolon ∷ []) (bracket + 1) result }
{
    let (arguments, last) = arguments(alloc, lexemes, nesting, bracket + 1)?;
    expect(lexemes, Sign::Semicolon, last)?;
    let token = bracket as u32;
    let call = Boxed::new(
        alloc,
        Call {
            name,
            arguments,
            token,
        },
    )?;
    Ok((Statement::Call(call), last + 1))
}

// `variable`, where a keyword of a shape stands.
#[tactic(auto, using(crate::proofs::Ways::no_memory))]
fn shape_statement(
    alloc: Global,
    lexemes: &Lexemes<'_>,
    nesting: u32,
    at: usize,
) -> Result<(Statement, usize), Fault>
    requires { nesting ≤ NESTING }
    ensures { Parses lexemes.now (IsStatement lexemes.now (Some NESTING) nesting at) (Shape ∷ TheName ∷ variable_end nesting nesting) at result }
{
    let (shape, next) = shape(alloc, lexemes, at)?;
    let (variable, end) = variable(alloc, lexemes, nesting, nesting, shape, next)?;
    let variable = Boxed::new(alloc, variable)?;
    Ok((Statement::Variable(variable), end))
}

// `"return" [ expr ] ";"`, where the keyword stands.
#[tactic(auto, using(crate::proofs::Ways::no_memory))]
fn return_statement(
    alloc: Global,
    lexemes: &Lexemes<'_>,
    nesting: u32,
    at: usize,
) -> Result<(Statement, usize), Fault>
    requires shallow { nesting ≤ NESTING }
    requires sees { SeesWord lexemes.now at ReturnWord }
    requires within { at < length lexemes.now }
    requires few { length lexemes.now ≤ TEXT_BYTES }
    ensures { Parses lexemes.now (IsStatement lexemes.now (Some NESTING) nesting at) (ReturnValue nesting ∷ []) (at + 1) result }
{
    let token = at as u32;
    if sees(lexemes, Sign::Semicolon, at + 1) {
        let value = None;
        let nothing = Boxed::new(alloc, Return { value, token })?;
        return Ok((Statement::Return(nothing), at + 2));
    }
    let (value, last) = expr(alloc, lexemes, nesting, at + 1)?;
    expect(lexemes, Sign::Semicolon, last)?;
    let value = Some(value);
    let something = Boxed::new(alloc, Return { value, token })?;
    Ok((Statement::Return(something), last + 1))
}

// `"print" "(" item { "," item } ")" ";"`, where the keyword stands.
#[tactic(auto, using(crate::proofs::Ways::no_memory))]
fn print_statement(
    alloc: Global,
    lexemes: &Lexemes<'_>,
    nesting: u32,
    at: usize,
) -> Result<(Statement, usize), Fault>
    requires shallow { nesting ≤ NESTING }
    requires sees { SeesWord lexemes.now at PrintWord }
    requires within { at < length lexemes.now }
    requires few { length lexemes.now ≤ TEXT_BYTES }
    ensures { Parses lexemes.now (IsStatement lexemes.now (Some NESTING) nesting at) (TheSign OpenRound ∷ Item nesting ∷ MoreItems nesting ∷ []) (at + 1) result }
{
    expect(lexemes, Sign::OpenRound, at + 1)?;
    let (items, end) = items(alloc, lexemes, nesting, at + 2)?;
    let token = at as u32;
    Ok((Statement::Print(Print { items, token }), end))
}

// `item { "," item } ")" ";"`
#[tactic(auto, using(crate::proofs::Ways::no_memory))]
fn items(
    alloc: Global,
    lexemes: &Lexemes<'_>,
    nesting: u32,
    at: usize,
) -> Result<(Items<PrintItem>, usize), Fault>
    requires { nesting ≤ NESTING }
    ensures { Parses lexemes.now (Several (IsItem lexemes.now (Some NESTING) nesting) (AreMoreItems lexemes.now (Some NESTING) nesting) at) (Item nesting ∷ MoreItems nesting ∷ []) at result }
{
    let mut items = Vec::new(alloc);
    let (first, mut next) = item(alloc, lexemes, nesting, at)?;
    put(&mut items, first)?;
    'each: while sees(lexemes, Sign::Comma, next) {
        let (more, after) = item(alloc, lexemes, nesting, next + 1)?;
        put(&mut items, more)?;
        next = after;
    }
    if !sees(lexemes, Sign::CloseRound, next) {
        return Err(Fault::NotHere(next));
    }
    expect(lexemes, Sign::Semicolon, next + 1)?;
    Ok((Items::from_vec(items), next + 2))
}

// `TEXT | expr`
#[tactic(auto, using(crate::proofs::Ways::no_memory))]
fn item(
    alloc: Global,
    lexemes: &Lexemes<'_>,
    nesting: u32,
    at: usize,
) -> Result<(PrintItem, usize), Fault>
    requires { nesting ≤ NESTING }
    ensures { Parses lexemes.now (IsItem lexemes.now (Some NESTING) nesting at) (Item nesting ∷ []) at result }
{
    if sees_text(lexemes, at) {
        let text = text_of(alloc, lexemes.bytes(at))?;
        let token = at as u32;
        return Ok((PrintItem::Text(PrintText { text, token }), at + 1));
    }
    if !begins_expr(lexemes.kind(at)) {
        return Err(Fault::NotHere(at));
    }
    allow_deeper(nesting, at)?;
    let (value, end) = expr(alloc, lexemes, nesting + 1, at)?;
    Ok((PrintItem::Expr(value), end))
}

/// `"{" { statement } "}"`
#[cycle(statement)]
#[tactic(auto, using(crate::proofs::Ways::no_memory))]
pub fn block(
    alloc: Global,
    lexemes: &Lexemes<'_>,
    nesting: u32,
    at: usize,
) -> Result<(Block, usize), Fault>
    requires { nesting ≤ NESTING }
    ensures { Parses lexemes.now (IsBlock lexemes.now (Some NESTING) nesting at) (BlockSymbol nesting ∷ []) at result }
{
    if !sees(lexemes, Sign::OpenCurly, at) {
        return Err(Fault::NotHere(at));
    }
    let (statements, end) = statements(alloc, lexemes, nesting, at + 1)?;
    let token = at as u32;
    Ok((Block { statements, token }, end))
}

// `{ statement } "}"`, where a statement is nested one deeper than its block.
#[cycle(statement)]
#[tactic(auto, using(crate::proofs::Ways::no_memory))]
fn statements(
    alloc: Global,
    lexemes: &Lexemes<'_>,
    nesting: u32,
    at: usize,
) -> Result<(Items<Statement>, usize), Fault>
    requires shallow { nesting ≤ NESTING }
    requires within { at ≤ length lexemes.now }
    ensures { Parses lexemes.now (AreStatements lexemes.now (Some NESTING) nesting at) (Statements nesting ∷ []) at result }
{
    let mut statements = Vec::new(alloc);
    let mut next = at;
    'each: while !sees(lexemes, Sign::CloseCurly, next) {
        if !begins_statement(lexemes.kind(next)) {
            return Err(Fault::NotHere(next));
        }
        allow_deeper(nesting, next)?;
        let (statement, after) = statement(alloc, lexemes, nesting + 1, next)?;
        put(&mut statements, statement)?;
        next = after;
    }
    Ok((Items::from_vec(statements), next + 1))
}

// `block | constant | variable | assign ";" | call ";" | if | while | for | return | print`
// or `";"`.
#[cycle(statement)]
#[tactic(auto, using(crate::proofs::Ways::no_memory))]
fn statement(
    alloc: Global,
    lexemes: &Lexemes<'_>,
    nesting: u32,
    at: usize,
) -> Result<(Statement, usize), Fault>
    requires { nesting ≤ NESTING }
    ensures { Parses lexemes.now (IsStatement lexemes.now (Some NESTING) nesting at) (StatementSymbol nesting ∷ []) at result }
{
    if begins_name(lexemes, at) {
        return named_statement(alloc, lexemes, nesting, at);
    }
    if begins_word_shape(lexemes.kind(at)) {
        return shape_statement(alloc, lexemes, nesting, at);
    }
    if sees(lexemes, Sign::OpenCurly, at) {
        let (block, end) = block(alloc, lexemes, nesting, at)?;
        return Ok((Statement::Block(block), end));
    }
    if sees(lexemes, Sign::Semicolon, at) {
        let token = at as u32;
        return Ok((Statement::Empty(Empty { token }), at + 1));
    }
    keyword_statement(alloc, lexemes, nesting, at)
}

// `constant | if | while | for | return | print`
#[cycle(statement)]
#[tactic(auto, using(crate::proofs::Ways::no_memory))]
fn keyword_statement(
    alloc: Global,
    lexemes: &Lexemes<'_>,
    nesting: u32,
    at: usize,
) -> Result<(Statement, usize), Fault>
    requires shallow { nesting ≤ NESTING }
    requires other { IsOther (kind_at lexemes.now at) }
    ensures { Parses lexemes.now (IsStatement lexemes.now (Some NESTING) nesting at) (StatementSymbol nesting ∷ []) at result }
{
    if sees_word(lexemes, Keyword::If, at) {
        return if_statement(alloc, lexemes, nesting, at);
    }
    if sees_word(lexemes, Keyword::While, at) {
        return while_statement(alloc, lexemes, nesting, at);
    }
    if sees_word(lexemes, Keyword::For, at) {
        return for_statement(alloc, lexemes, nesting, at);
    }
    if sees_word(lexemes, Keyword::Return, at) {
        return return_statement(alloc, lexemes, nesting, at);
    }
    if sees_word(lexemes, Keyword::Print, at) {
        return print_statement(alloc, lexemes, nesting, at);
    }
    if !sees_word(lexemes, Keyword::Const, at) {
        return Err(Fault::NotHere(at));
    }
    let (constant, end) = constant(alloc, lexemes, nesting, at)?;
    let constant = Boxed::new(alloc, constant)?;
    Ok((Statement::Constant(constant), end))
}

// `"if" "(" expr ")" statement { "else" "if" "(" expr ")" statement } [ "else" statement ]`,
// where the keyword stands.
#[cycle(statement)]
#[tactic(auto, using(crate::proofs::Ways::no_memory))]
fn if_statement(
    alloc: Global,
    lexemes: &Lexemes<'_>,
    nesting: u32,
    at: usize,
) -> Result<(Statement, usize), Fault>
    requires shallow { nesting ≤ NESTING }
    requires sees { SeesWord lexemes.now at IfWord }
    requires within { at < length lexemes.now }
    requires few { length lexemes.now ≤ TEXT_BYTES }
    ensures { Parses lexemes.now (IsStatement lexemes.now (Some NESTING) nesting at) (StatementSymbol nesting ∷ []) at result }
{
    allow_deeper(nesting, at)?;
    let (form, end) = arms(alloc, lexemes, nesting, at)?;
    Ok((Statement::If(form), end))
}

// All of an `if` after its keyword, which stands at the place.
#[cycle(statement)]
#[tactic(auto, using(crate::proofs::Ways::no_memory))]
fn arms(alloc: Global, lexemes: &Lexemes<'_>, nesting: u32, at: usize) -> Result<(If, usize), Fault>
    requires deeper { nesting + 1 ≤ NESTING }
    requires within { at < length lexemes.now }
    requires few { length lexemes.now ≤ TEXT_BYTES }
    ensures { Parses lexemes.now (AreArms lexemes.now nesting at) (ArmSymbol nesting ∷ Elses nesting ∷ []) (at + 1) result }
{
    let token = at as u32;
    let mut arms = Vec::new(alloc);
    let (first, mut next) = arm(alloc, lexemes, nesting, at + 1)?;
    put(&mut arms, first)?;
    'each: while sees_word(lexemes, Keyword::Else, next) {
        if !sees_word(lexemes, Keyword::If, next + 1) {
            let (last, end) = statement(alloc, lexemes, nesting + 1, next + 1)?;
            let last = Boxed::new(alloc, last)?;
            let otherwise = Some(last);
            let arms = Items::from_vec(arms);
            return Ok((
                If {
                    arms,
                    otherwise,
                    token,
                },
                end,
            ));
        }
        let (more, after) = arm(alloc, lexemes, nesting, next + 2)?;
        put(&mut arms, more)?;
        next = after;
    }
    let arms = Items::from_vec(arms);
    let otherwise = None;
    Ok((
        If {
            arms,
            otherwise,
            token,
        },
        next,
    ))
}

// `"(" expr ")" statement`, where both are nested one deeper.
#[cycle(statement)]
#[tactic(auto, using(crate::proofs::Ways::no_memory))]
fn arm(alloc: Global, lexemes: &Lexemes<'_>, nesting: u32, at: usize) -> Result<(Arm, usize), Fault>
    requires { nesting + 1 ≤ NESTING }
    ensures { Parses lexemes.now (IsArm lexemes.now (Some NESTING) nesting at) (ArmSymbol nesting ∷ []) at result }
{
    if !sees(lexemes, Sign::OpenRound, at) {
        return Err(Fault::NotHere(at));
    }
    let (test, next) = expr_before(alloc, lexemes, Sign::CloseRound, nesting + 1, at + 1)?;
    let (body, end) = statement(alloc, lexemes, nesting + 1, next)?;
    let body = Boxed::new(alloc, body)?;
    Ok((Arm { test, body }, end))
}

// `"while" "(" expr ")" statement`, where the keyword stands.
#[cycle(statement)]
#[tactic(auto, using(crate::proofs::Ways::no_memory))]
fn while_statement(
    alloc: Global,
    lexemes: &Lexemes<'_>,
    nesting: u32,
    at: usize,
) -> Result<(Statement, usize), Fault>
    requires shallow { nesting ≤ NESTING }
    requires sees { SeesWord lexemes.now at WhileWord }
    requires within { at < length lexemes.now }
    requires few { length lexemes.now ≤ TEXT_BYTES }
    ensures { Parses lexemes.now (IsStatement lexemes.now (Some NESTING) nesting at) (StatementSymbol nesting ∷ []) at result }
{
    allow_deeper(nesting, at)?;
    if !sees(lexemes, Sign::OpenRound, at + 1) {
        return Err(Fault::NotHere(at + 1));
    }
    let (test, next) = expr_before(alloc, lexemes, Sign::CloseRound, nesting + 1, at + 2)?;
    let (body, end) = statement(alloc, lexemes, nesting + 1, next)?;
    let token = at as u32;
    let form = Boxed::new(alloc, While { test, body, token })?;
    Ok((Statement::While(form), end))
}

// `"for" "(" ( variable | assign ";" ) expr ";" assign ")" statement`, where the keyword stands:
// the statement is nested one deeper than the `for`.
#[cycle(statement)]
#[tactic(auto, using(crate::proofs::Ways::no_memory))]
fn for_statement(
    alloc: Global,
    lexemes: &Lexemes<'_>,
    nesting: u32,
    at: usize,
) -> Result<(Statement, usize), Fault>
    requires shallow { nesting ≤ NESTING }
    requires sees { SeesWord lexemes.now at ForWord }
    requires within { at < length lexemes.now }
    requires few { length lexemes.now ≤ TEXT_BYTES }
    ensures { Parses lexemes.now (IsStatement lexemes.now (Some NESTING) nesting at) (StatementSymbol nesting ∷ []) at result }
{
    allow_deeper(nesting, at)?;
    let (head, from) = for_head(alloc, lexemes, nesting, at + 1)?;
    let (body, end) = statement(alloc, lexemes, nesting + 1, from)?;
    let ForHead { start, test, next } = head;
    let token = at as u32;
    let form = Boxed::new(
        alloc,
        For {
            start,
            test,
            next,
            body,
            token,
        },
    )?;
    Ok((Statement::For(form), end))
}
