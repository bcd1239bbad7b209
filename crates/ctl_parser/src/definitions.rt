//! Definitions.

ghost use Rattle.std.specs.Prelude.{◌≡◌, ◌+◌, ◌<◌, ◌≤◌, List, [], ◌∷◌, length, Some, true};
ghost use Rattle.ctl_tree.specs.declared.keyword.Keyword.TheVariants.{Struct as StructWord, Namespace as NamespaceWord};
ghost use Rattle.ctl_tree.specs.declared.definition.Definition.TheVariants.{Namespace as NamespaceForm};
ghost use Rattle.ctl_tree.specs.Lexemes.{kind_at, SeesWord};
ghost use Rattle.ctl_tree.specs.Modules.{IsResult, IsFunction, IsField, AreMoreFields, MayEnd, IsStruct, IsDefinition, AreDefinitions, ends as definitions_end};
ghost use Rattle.grammar_machine.specs.Front.{begins_result};
ghost use Rattle.grammar_machine.specs.Machine.{Symbol, begins_definition as definition_begins};
ghost use Rattle.grammar_machine.specs.Machine.Symbol.{Result as ResultSymbol, Field as FieldSymbol, MoreFields, MayEnd as MayEndSymbol, Definition as DefinitionSymbol, Definitions};
ghost use Rattle.ctl_parser_expr.specs.Parses.{Parses, ParsesAny, IsFrom, Comes, At};
ghost use Rattle.ctl_parser.specs.PrivateParts.{Several};

use crate::parameters::parameters;
use crate::statements::block;
use ctl_base::limits::{NESTING, TEXT_BYTES};
use ctl_parser_expr::{
    Fault, Lexemes, allow_deeper, constant, expect, name, put, sees, sees_word, shape, sizes,
};
use ctl_tree::{
    Definition, Field, Function, Keyword, Namespace, Sign, SizedShape, Struct, TokenKind,
};
use sqlite_items::Items;
use std::alloc::Global;

// `"void" | shape { "[" expr "]" }`
#[tactic(auto, using(crate::proofs::Ways::no_memory))]
fn result_shape(
    alloc: Global,
    lexemes: &Lexemes<'_>,
    nesting: u32,
    at: usize,
) -> Result<(Option<SizedShape>, usize), Fault>
    requires { nesting ≤ NESTING }
    ensures { Parses lexemes.now (IsResult lexemes.now (Some NESTING) nesting at) (ResultSymbol nesting ∷ []) at result }
{
    if sees_word(lexemes, Keyword::Void, at) {
        return Ok((None, at + 1));
    }
    let (shape, next) = shape(alloc, lexemes, at)?;
    let (sizes, end) = sizes(alloc, lexemes, nesting, next)?;
    Ok((Some(SizedShape { shape, sizes }), end))
}

// `result NAME "(" [ param { "," param } ] ")" block`, where a result begins.
#[tactic(auto, using(crate::proofs::Ways::no_memory))]
fn function(
    alloc: Global,
    lexemes: &Lexemes<'_>,
    nesting: u32,
    at: usize,
) -> Result<(Function, usize), Fault>
    requires shallow { nesting ≤ NESTING }
    requires begins { begins_result (kind_at lexemes.now at) ≡ true }
    ensures { Parses lexemes.now (IsFunction lexemes.now (Some NESTING) nesting at) (DefinitionSymbol nesting ∷ []) at result }
{
    allow_deeper(nesting, at)?;
    let (result, place) = result_shape(alloc, lexemes, nesting, at)?;
    let name = name(alloc, lexemes, place)?;
    expect(lexemes, Sign::OpenRound, place + 1)?;
    let (parameters, next) = parameters(alloc, lexemes, nesting, place + 2)?;
    let (body, end) = block(alloc, lexemes, nesting + 1, next)?;
    let token = place as u32;
    let function = Function {
        result,
        name,
        parameters,
        body,
        token,
    };
    Ok((function, end))
}

// `shape NAME { "[" expr "]" } ";"`
#[tactic(auto, using(crate::proofs::Ways::no_memory))]
fn field(
    alloc: Global,
    lexemes: &Lexemes<'_>,
    nesting: u32,
    at: usize,
) -> Result<(Field, usize), Fault>
    requires { nesting ≤ NESTING }
    ensures { Parses lexemes.now (IsField lexemes.now (Some NESTING) nesting at) (FieldSymbol nesting ∷ []) at result }
{
    let (shape, place) = shape(alloc, lexemes, at)?;
    let name = name(alloc, lexemes, place)?;
    let (sizes, last) = sizes(alloc, lexemes, nesting, place + 1)?;
    expect(lexemes, Sign::Semicolon, last)?;
    let token = place as u32;
    let field = Field {
        shape,
        name,
        sizes,
        token,
    };
    Ok((field, last + 1))
}

// `field { field } "}"`
#[tactic(auto, using(crate::proofs::Ways::no_memory))]
fn fields(
    alloc: Global,
    lexemes: &Lexemes<'_>,
    nesting: u32,
    at: usize,
) -> Result<(Items<Field>, usize), Fault>
    requires { nesting ≤ NESTING }
    ensures { Parses lexemes.now (Several (IsField lexemes.now (Some NESTING) nesting) (AreMoreFields lexemes.now (Some NESTING) nesting) at) (FieldSymbol nesting ∷ MoreFields nesting ∷ []) at result }
{
    let mut fields = Vec::new(alloc);
    let (first, mut next) = field(alloc, lexemes, nesting, at)?;
    put(&mut fields, first)?;
    'each: while !sees(lexemes, Sign::CloseCurly, next) {
        let (more, after) = field(alloc, lexemes, nesting, next)?;
        put(&mut fields, more)?;
        next = after;
    }
    Ok((Items::from_vec(fields), next + 1))
}

// `[ ";" ]`
fn may_end(lexemes: &Lexemes<'_>, at: usize) -> usize
    requires { at ≤ length lexemes.now }
    ensures spells { MayEnd lexemes.now at result }
    ensures ends { IsFrom at result lexemes.now }
    ensures passes { (below : List Symbol) → Comes lexemes.now (Some NESTING) (MayEndSymbol ∷ below) at (At below result) }
{
    if sees(lexemes, Sign::Semicolon, at) {
        return at + 1;
    }
    at
}

// `"struct" NAME "{" field { field } "}" [ ";" ]`, where the keyword stands.
#[tactic(auto, using(crate::proofs::Ways::no_memory))]
fn structure(
    alloc: Global,
    lexemes: &Lexemes<'_>,
    nesting: u32,
    at: usize,
) -> Result<(Struct, usize), Fault>
    requires shallow { nesting ≤ NESTING }
    requires sees { SeesWord lexemes.now at StructWord }
    requires within { at < length lexemes.now }
    requires few { length lexemes.now ≤ TEXT_BYTES }
    ensures { Parses lexemes.now (IsStruct lexemes.now (Some NESTING) nesting at) (DefinitionSymbol nesting ∷ []) at result }
{
    let name = name(alloc, lexemes, at + 1)?;
    expect(lexemes, Sign::OpenCurly, at + 2)?;
    let (fields, next) = fields(alloc, lexemes, nesting, at + 3)?;
    let end = may_end(lexemes, next);
    let token = at as u32 + 1;
    let structure = Struct {
        name,
        fields,
        token,
    };
    Ok((structure, end))
}

// `"namespace" NAME "{" { definition } "}"`, where the keyword stands.
#[cycle(definition)]
#[tactic(auto, using(crate::proofs::Ways::no_memory))]
fn namespace(
    alloc: Global,
    lexemes: &Lexemes<'_>,
    nesting: u32,
    at: usize,
) -> Result<(Namespace, usize), Fault>
    requires shallow { nesting ≤ NESTING }
    requires sees { SeesWord lexemes.now at NamespaceWord }
    requires within { at < length lexemes.now }
    requires few { length lexemes.now ≤ TEXT_BYTES }
    ensures { Parses lexemes.now (λ namespace end. IsDefinition lexemes.now (Some NESTING) nesting at (NamespaceForm namespace) end) (DefinitionSymbol nesting ∷ []) at result }
{
    let name = name(alloc, lexemes, at + 1)?;
    expect(lexemes, Sign::OpenCurly, at + 2)?;
    let (definitions, close) = definitions(alloc, lexemes, nesting + 1, at + 3)?;
    expect(lexemes, Sign::CloseCurly, close)?;
    let token = at as u32 + 1;
    let namespace = Namespace {
        name,
        definitions,
        token,
    };
    Ok((namespace, close + 1))
}

// `namespace | struct | constant | function`, where one begins.
#[cycle(definition)]
#[tactic(auto, using(crate::proofs::Ways::no_memory))]
fn definition(
    alloc: Global,
    lexemes: &Lexemes<'_>,
    nesting: u32,
    at: usize,
) -> Result<(Definition, usize), Fault>
    requires shallow { nesting ≤ NESTING }
    requires begins { definition_begins (kind_at lexemes.now at) ≡ true }
    ensures { Parses lexemes.now (IsDefinition lexemes.now (Some NESTING) nesting at) (DefinitionSymbol nesting ∷ []) at result }
{
    if sees_word(lexemes, Keyword::Namespace, at) {
        let (namespace, end) = namespace(alloc, lexemes, nesting, at)?;
        return Ok((Definition::Namespace(namespace), end));
    }
    if sees_word(lexemes, Keyword::Struct, at) {
        let (structure, end) = structure(alloc, lexemes, nesting, at)?;
        return Ok((Definition::Struct(structure), end));
    }
    if sees_word(lexemes, Keyword::Const, at) {
        let (constant, end) = constant(alloc, lexemes, nesting, at)?;
        return Ok((Definition::Constant(constant), end));
    }
    let (function, end) = function(alloc, lexemes, nesting, at)?;
    Ok((Definition::Function(function), end))
}

/// `{ definition }`, up to a `}` or the end of the tokens.
#[cycle(definition)]
#[tactic(auto, using(crate::proofs::Ways::no_memory))]
pub fn definitions(
    alloc: Global,
    lexemes: &Lexemes<'_>,
    nesting: u32,
    at: usize,
) -> Result<(Items<Definition>, usize), Fault>
    requires shallow { nesting ≤ NESTING + 1 }
    requires within { at ≤ length lexemes.now }
    ensures { ParsesAny lexemes.now (AreDefinitions lexemes.now (Some NESTING) nesting at) (Definitions nesting ∷ []) at result }
{
    let mut definitions = Vec::new(alloc);
    let mut next = at;
    'each: while !ends(lexemes.kind(next)) {
        if !begins_definition(lexemes.kind(next)) {
            return Err(Fault::NotHere(next));
        }
        if nesting > NESTING {
            return Err(Fault::Depth(next));
        }
        let (definition, after) = definition(alloc, lexemes, nesting, next)?;
        put(&mut definitions, definition)?;
        next = after;
    }
    Ok((Items::from_vec(definitions), next))
}

// Whether a token ends definitions: a `}` or the end of the tokens.
fn ends(kind: Option<TokenKind>) -> bool
    ensures { result ≡ definitions_end kind }
{
    matches!(kind, None | Some(TokenKind::Sign(Sign::CloseCurly)))
}

// Whether a token begins a definition.
fn begins_definition(kind: Option<TokenKind>) -> bool
    ensures { result ≡ definition_begins kind }
{
    matches!(
        kind,
        Some(
            TokenKind::Name
                | TokenKind::Sign(Sign::ColonColon)
                | TokenKind::Word(
                    Keyword::Namespace
                        | Keyword::Struct
                        | Keyword::Const
                        | Keyword::Void
                        | Keyword::Bool
                        | Keyword::Int
                        | Keyword::Unsigned
                        | Keyword::Half
                        | Keyword::Float
                )
        )
    )
}
