//! How the command ends.

use ctl_base::{Memory, Node, TextArg, TrapKind};
use ctl_scope::CheckKind;
use ctl_tree::{LexKind, SyntaxKind};
use dpx_file::DpxFault;

/// Why a text is refused.
#[derive(Clone, Copy, PartialEq, Eq)]
pub enum SourceFault {
    /// At a place no token begins.
    Lex(LexKind),
    /// The tokens spell no module of a nesting that is allowed.
    Syntax(SyntaxKind),
    /// It imports a module that is being loaded already.
    Cycle,
    /// The text has more bytes than are allowed.
    TooLong,
    /// It imports one module more than are allowed.
    TooMany,
    /// A form breaks a rule of the language.
    Check(CheckKind),
}

/// Why the source gives no image.
#[derive(Clone, Copy, PartialEq, Eq)]
pub enum ImageFault {
    /// The source is not held.
    Absent,
    /// The source has more bytes than are allowed.
    TooLong,
    /// The source breaks a rule of the format.
    Dpx(DpxFault),
}

/// How the command ends, and what stopped it.
#[derive(Drop)]
pub enum Status {
    /// The destination holds the rendered image.
    Done,
    /// The destination is held already.
    Exists,
    /// The text of the stage, or a module that it imports, is not held.
    NotFound {
        name: TextArg,
    },
    /// A text is refused at this line, and at line 0 where no place of it is at fault.
    Source {
        file: TextArg,
        line: u32,
        fault: SourceFault,
    },
    /// The source gives no image.
    Image {
        fault: ImageFault,
    },
    /// The run of a pixel traps, the first in the order of lines and columns. All three are counted from 0.
    Trap {
        line: u32,
        column: u32,
        stage: u32,
        kind: TrapKind,
        node: Node,
    },
    /// A text or the source cannot be read, or whether the destination is held cannot be told.
    ReadFault {
        name: TextArg,
    },
    /// The destination cannot be written.
    WriteFault,
    /// Want of memory.
    Memory,
    /// The words, or the entry of the stage, are of a form that is not built yet.
    Later,
}

impl From<Memory> for Status {
    ghost use Rattle.std.specs.Prelude.{◌≡◌};
    ghost use Rattle.command_status.specs.declared.status.Status.TheVariants.{Memory as NoMemory};

    ghost from_gives = { λ _ status. status ≡ NoMemory };

    fn from(_: Memory) -> Status {
        Status::Memory
    }
}

impl Status {
    ghost use Rattle.std.specs.Prelude.{◌≡◌};
    ghost use Rattle.command_status.specs.Messages.{code_of};

    /// The number that the program ends with.
    pub fn code(&self) -> u8
        ensures { result ≡ code_of self.now }
    {
        match self {
            Status::Done => 0,
            Status::Exists => 3,
            Status::NotFound { .. } => 4,
            Status::Source { .. } => 5,
            Status::Image { .. } => 8,
            Status::Trap { .. } => 9,
            Status::ReadFault { .. } => 10,
            Status::WriteFault => 11,
            Status::Memory => 12,
            Status::Later => 13,
        }
    }
}
