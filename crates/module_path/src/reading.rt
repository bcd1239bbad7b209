//! The unit that a text is.

ghost use Rattle.std.specs.Prelude.{◌≡◌, ◌≤◌, length, IfOk, All};
ghost use Rattle.ctl_base.specs.declared.limits.TheConstants.{TEXT_BYTES};
ghost use Rattle.ctl_tree.specs.Modules.{IsPrintable};
ghost use Rattle.module_path.specs.Reading.{ReadsAs};
ghost use Rattle.module_path.specs.Loading.{Seen};
ghost use Rattle.module_path.specs.Means.{source_of, ArePrintable};

use crate::fault::LoadFault;
use crate::files::SourceFile;
use ctl_lexer::{LexFault, lex};
use ctl_parser::{SyntaxFault, parse};
use ctl_tree::{Unit, tokens_stand};
use std::alloc::Global;

// The unit that the text of a file is. The text is let go with the call.
pub(crate) fn read_unit(alloc: Global, text: SourceFile) -> Result<Unit, LoadFault>
    requires { length text.bytes ≤ TEXT_BYTES }
    ensures reads { Seen (λ unit. unit) (ReadsAs (source_of text)) result }
    ensures printable { IfOk result (λ unit. ArePrintable unit.«module».imports) }
{
    let SourceFile { file, bytes } = text;
    let tokens = match lex(alloc, bytes.as_slice()) {
        Ok(tokens) => tokens,
        Err(LexFault::At { at, line, kind }) => return Err(LoadFault::Lex {
            file,
            at,
            line,
            kind,
        }),
        Err(LexFault::Memory) => return Err(LoadFault::Memory),
    };
    let module = match parse(alloc, bytes.as_slice(), tokens.as_slice()) {
        Ok(module) => module,
        Err(SyntaxFault::At { at, line, kind }) => return Err(LoadFault::Syntax {
            file,
            at,
            line,
            kind,
        }),
        Err(SyntaxFault::Memory) => return Err(LoadFault::Memory),
    };
    tokens_stand();
    Ok(Unit::new(file, tokens, module))
}

// The name of an import as a text.
pub(crate) fn as_text(name: &[u8]) -> &str
    requires { All IsPrintable name.now }
    ensures { result.now ≡ name.now }
{
    match str::from_utf8(name) {
        Ok(text) => text,
        Err(_) => "",
    }
}
