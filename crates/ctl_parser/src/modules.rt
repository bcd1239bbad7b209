//! Modules.

ghost use Rattle.std.specs.Prelude.{◌≡◌, ◌≢◌, ◌+◌, ◌<◌, ◌≤◌, List, [], ◌∷◌, length, Some, IfOk, IfErr, All, false};
ghost use Rattle.ctl_tree.specs.declared.token.TokenKind.TheVariants.{Whole, Text};
ghost use Rattle.ctl_tree.specs.Lexemes.{kind_at, bytes_at};
ghost use Rattle.ctl_tree.specs.Texts.{unquoted};
ghost use Rattle.ctl_tree.specs.Modules.{IsVersion, AreImports, IsModule, IsPrintable};
ghost use Rattle.grammar_machine.specs.Front.{all_printable};
ghost use Rattle.grammar_machine.specs.Machine.{Symbol, start};
ghost use Rattle.grammar_machine.specs.Machine.Symbol.{Version, Imports, ImportText};
ghost use Rattle.ctl_parser_expr.specs.Parses.{ParsesAny, IsFrom, Fails, Comes, In};
ghost use Rattle.ctl_parser_expr.specs.Lookup.{Told};
ghost use Rattle.ctl_parser.specs.PrivateParts.{end_at};

use crate::definitions::definitions;
use crate::texts::text_of;
use ctl_base::ByteText;
use ctl_base::limits::{NESTING, TEXT_BYTES};
use ctl_parser_expr::{Fault, Lexemes, expect, put, sees_text, sees_word};
use ctl_tree::{Import, Keyword, Module, Sign, TokenKind};
use sqlite_items::Items;
use std::alloc::Global;

/// `[ "ctlversion" WHOLE ";" ] { import } { definition }`
pub fn module(alloc: Global, lexemes: &Lexemes<'_>) -> Result<Module, Fault>
    ensures spells { IfOk result (λ m. IsModule lexemes.now (Some NESTING) m) }
    ensures fails { IfErr result (λ fault. Comes lexemes.now (Some NESTING) start 0 (In fault)) }
{
    let begin = version(lexemes, 0)?;
    let (imports, next) = imports(alloc, lexemes, begin)?;
    let (definitions, end) = definitions(alloc, lexemes, 0, next)?;
    if end != lexemes.len() {
        return Err(Fault::NotHere(end));
    }
    Ok(Module {
        imports,
        definitions,
    })
}

// `[ "ctlversion" WHOLE ";" ]`
fn version(lexemes: &Lexemes<'_>, at: usize) -> Result<usize, Fault>
    requires { at ≤ length lexemes.now }
    ensures spells { IfOk result (IsVersion lexemes.now at) }
    ensures ends { IfOk result (λ next. IsFrom at next lexemes.now) }
    ensures follows { (below : List Symbol) → Comes lexemes.now (Some NESTING) (Version ∷ below) at (end_at below result) }
{
    if !sees_word(lexemes, Keyword::Ctlversion, at) {
        return Ok(at);
    }
    if !is_one(lexemes.kind(at + 1)) {
        return Err(Fault::NotHere(at + 1));
    }
    expect(lexemes, Sign::Semicolon, at + 2)?;
    Ok(at + 3)
}

// Whether a token is the number 1.
fn is_one(kind: Option<TokenKind>) -> bool
    ensures { Told result (kind ≡ Some (Whole 1)) (kind ≢ Some (Whole 1)) }
{
    matches!(kind, Some(TokenKind::Whole(1)))
}

// `{ "import" TEXT ";" }`
#[tactic(auto, using(crate::proofs::Ways::no_memory))]
fn imports(alloc: Global, lexemes: &Lexemes<'_>, at: usize) -> Result<(Items<Import>, usize), Fault>
    requires { at ≤ length lexemes.now }
    ensures { ParsesAny lexemes.now (AreImports lexemes.now at) (Imports ∷ []) at result }
{
    let mut imports = Vec::new(alloc);
    let mut next = at;
    'each: while sees_word(lexemes, Keyword::Import, next) {
        let name = import_text(alloc, lexemes, next + 1)?;
        expect(lexemes, Sign::Semicolon, next + 2)?;
        let token = next as u32 + 1;
        put(&mut imports, Import { name, token })?;
        next += 3;
    }
    Ok((Items::from_vec(imports), next))
}

// What the text of an import, which must stand at a place, stands for.
fn import_text(alloc: Global, lexemes: &Lexemes<'_>, at: usize) -> Result<ByteText, Fault>
    ensures sees { IfOk result (λ name. (kind_at lexemes.now at ≡ Some Text) × (name ≡ unquoted (bytes_at lexemes.now at)) × All IsPrintable name × (at < length lexemes.now)) }
    ensures few { length lexemes.now ≤ TEXT_BYTES }
    ensures fails { IfErr result (Fails lexemes.now (ImportText ∷ []) at) }
{
    if !sees_text(lexemes, at) {
        return Err(Fault::NotHere(at));
    }
    let name = text_of(alloc, lexemes.bytes(at))?;
    if !are_printable(name.as_slice()) {
        return Err(Fault::NotHere(at));
    }
    Ok(name)
}

// Whether all bytes are from 32 to 126.
fn are_printable(bytes: &[u8]) -> bool
    ensures { Told result (All IsPrintable bytes.now) (all_printable bytes.now ≡ false) }
{
    'each: for byte in bytes {
        if *byte < 32 || *byte > 126 {
            return false;
        }
    }
    true
}
