//! The names of the faults.

ghost use Rattle.std.specs.Prelude.{◌≡◌};
ghost use Rattle.command_status.specs.Messages.{check_kind as check_name, dpx_kind as dpx_name, image_kind as image_name, lex_kind as lex_name, source_kind as source_name, syntax_kind as syntax_name, trap_kind as trap_name};

use crate::status::{ImageFault, SourceFault};
use ctl_base::TrapKind;
use ctl_scope::CheckKind;
use ctl_tree::{LexKind, SyntaxKind};
use dpx_file::DpxFault;

// The name of a fault of the text.
pub(crate) fn source_kind(fault: &SourceFault) -> &'static [u8]
    ensures { result.now ≡ source_name fault.now }
{
    match fault {
        SourceFault::Lex(kind) => lex_kind(kind),
        SourceFault::Syntax(kind) => syntax_kind(kind),
        SourceFault::Cycle => b"Cycle",
        SourceFault::TooLong => b"TooLong",
        SourceFault::TooMany => b"TooMany",
        SourceFault::Check(kind) => check_kind(kind),
    }
}

fn lex_kind(kind: &LexKind) -> &'static [u8]
    ensures { result.now ≡ lex_name kind.now }
{
    match kind {
        LexKind::NoToken => b"NoToken",
        LexKind::OpenComment => b"OpenComment",
        LexKind::OpenText => b"OpenText",
        LexKind::Literal => b"Literal",
        LexKind::NotAscii => b"NotAscii",
    }
}

fn syntax_kind(kind: &SyntaxKind) -> &'static [u8]
    ensures { result.now ≡ syntax_name kind.now }
{
    match kind {
        SyntaxKind::NotHere => b"NotHere",
        SyntaxKind::Depth => b"Depth",
    }
}

fn check_kind(kind: &CheckKind) -> &'static [u8]
    ensures { result.now ≡ check_name kind.now }
{
    match kind {
        CheckKind::UnknownName => b"UnknownName",
        CheckKind::Recursion => b"Recursion",
        CheckKind::Twice => b"Twice",
        CheckKind::NotAType => b"NotAType",
        CheckKind::NotAFunction => b"NotAFunction",
        CheckKind::TooDeep => b"TooDeep",
        CheckKind::Arguments => b"Arguments",
        CheckKind::NotAssignable => b"NotAssignable",
        CheckKind::Mismatch => b"Mismatch",
        CheckKind::BadSize => b"BadSize",
        CheckKind::NoReturn => b"NoReturn",
        CheckKind::BadEntry => b"BadEntry",
        CheckKind::ConstTrap => b"ConstTrap",
    }
}

// The name of a kind of trap.
pub(crate) fn trap_kind(kind: &TrapKind) -> &'static [u8]
    ensures { result.now ≡ trap_name kind.now }
{
    match kind {
        TrapKind::Turns => b"Turns",
        TrapKind::Index => b"Index",
        TrapKind::Assert => b"Assert",
    }
}

// The name of a fault of the source, without its numbers.
pub(crate) fn image_kind(fault: &ImageFault) -> &'static [u8]
    ensures { result.now ≡ image_name fault.now }
{
    match fault {
        ImageFault::Absent => b"Absent",
        ImageFault::TooLong => b"TooLong",
        ImageFault::Dpx(fault) => dpx_kind(fault),
    }
}

fn dpx_kind(fault: &DpxFault) -> &'static [u8]
    ensures { result.now ≡ dpx_name fault.now }
{
    match fault {
        DpxFault::NotDpx => b"NotDpx",
        DpxFault::Truncated { .. } => b"Truncated",
        DpxFault::Encrypted => b"Encrypted",
        DpxFault::Orientation(_) => b"Orientation",
        DpxFault::Elements(_) => b"Elements",
        DpxFault::Size { .. } => b"Size",
        DpxFault::Sign(_) => b"Sign",
        DpxFault::Descriptor(_) => b"Descriptor",
        DpxFault::Depth(_) => b"Depth",
        DpxFault::Packing(_) => b"Packing",
        DpxFault::Compressed(_) => b"Compressed",
    }
}
