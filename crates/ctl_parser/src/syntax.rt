//! The module that tokens spell.

ghost use Rattle.std.specs.Prelude.{◌≡◌, ◌≤◌, length, Some, IfOk, IfErr};
ghost use Rattle.ctl_tree.specs.Tokens.{StandsFor};
ghost use Rattle.ctl_tree.specs.Lexemes.{lexemes_of};
ghost use Rattle.ctl_tree.specs.Lines.{line_at, line_of_place};
ghost use Rattle.ctl_tree.specs.Modules.{IsModule};
ghost use Rattle.ctl_parser.specs.declared.syntax.SyntaxFault.TheVariants.{At};
ghost use Rattle.ctl_parser.specs.Faults.{FaultOf, NoneSpelt};
ghost use Rattle.ctl_parser.specs.PrivateFaults.{Tells, IsPlaced};

use crate::modules::module;
use ctl_base::limits::{NESTING, TEXT_BYTES};
use ctl_parser_expr::{Fault, Lexemes};
use ctl_tree::{Module, SyntaxKind, Token};
use fix_num::FRACTION;
use grammar_machine::{refusals_spell_none, sinks_are_faults, stops_are_faults};
use std::alloc::Global;

/// Why tokens give no module.
#[derive(Clone, Copy, Debug, PartialEq, Eq)]
pub enum SyntaxFault {
    /// At the token `at`, in this line. At the number of tokens the line is that of the source's end.
    At {
        at: u32,
        line: u32,
        kind: SyntaxKind,
    },
    Memory,
}

/// The module that the tokens of a source spell, of nesting at most 200, or where and why they spell none.
pub fn parse(alloc: Global, source: &[u8], tokens: &[Token]) -> Result<Module, SyntaxFault>
    requires stands { StandsFor FRACTION tokens.now source.now }
    requires short { length source.now ≤ TEXT_BYTES }
    ensures spells { IfOk result (λ m. IsModule (lexemes_of source.now tokens.now) (Some NESTING) m) }
    ensures fault { IfErr result (FaultOf NESTING source.now tokens.now) }
    ensures none { IfErr result (NoneSpelt NESTING source.now tokens.now) }
{
    stops_are_faults();
    sinks_are_faults();
    refusals_spell_none();
    let lexemes = Lexemes::new(source, tokens);
    match module(alloc, &lexemes) {
        Ok(module) => Ok(module),
        Err(fault) => Err(told(source, tokens, fault)),
    }
}

// What is told of a fault.
fn told(source: &[u8], tokens: &[Token], fault: Fault) -> SyntaxFault
    requires short { length source.now ≤ TEXT_BYTES }
    requires placed { IsPlaced TEXT_BYTES fault }
    ensures { Tells source.now tokens.now fault result }
{
    match fault {
        Fault::NotHere(place) => told_at(source, tokens, place, SyntaxKind::NotHere),
        Fault::Depth(place) => told_at(source, tokens, place, SyntaxKind::Depth),
        Fault::Memory => SyntaxFault::Memory,
    }
}

// A fault of a kind at a place.
fn told_at(source: &[u8], tokens: &[Token], place: usize, kind: SyntaxKind) -> SyntaxFault
    requires short { length source.now ≤ TEXT_BYTES }
    requires placed { place ≤ TEXT_BYTES }
    ensures { result ≡ At place (line_of_place source.now tokens.now place) kind }
{
    let line = match tokens.get(place) {
        None => last_line(source),
        Some(token) => token.line,
    };
    SyntaxFault::At {
        at: place as u32,
        line,
        kind,
    }
}

// The line of the end of a source.
fn last_line(source: &[u8]) -> u32
    requires short { length source.now ≤ TEXT_BYTES }
    ensures { result ≡ line_at source.now (length source.now) }
{
    let mut line = 1;
    'each: for byte in source {
        if *byte == b'\n' {
            line += 1;
        }
    }
    line
}
