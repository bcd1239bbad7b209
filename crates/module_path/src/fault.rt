//! Why modules are not loaded.

ghost use Rattle.std.specs.Prelude.{◌≡◌};

use ctl_base::{Memory, TextArg};
use ctl_tree::{LexKind, SyntaxKind};
use std::alloc::{AllocError, AllocFailed};

/// Why modules are not loaded, in the order in which one import is treated.
#[derive(Debug, Drop)]
pub enum LoadFault {
    /// The module that a file imports is being loaded already.
    Cycle {
        file: TextArg,
        name: TextArg,
    },
    /// The module that a file imports would be one more than a stage may have.
    TooMany {
        file: TextArg,
    },
    /// No folder holds the module of this name, or the root of this name is not held.
    NotFound {
        name: TextArg,
    },
    /// The box failed on the file of this name.
    ReadFault {
        name: TextArg,
    },
    /// The file has more bytes than a text may have.
    TooLong {
        file: TextArg,
    },
    /// The text of the file has a fault of its bytes.
    Lex {
        file: TextArg,
        at: u32,
        line: u32,
        kind: LexKind,
    },
    /// The tokens of the text of the file have a fault.
    Syntax {
        file: TextArg,
        at: u32,
        line: u32,
        kind: SyntaxKind,
    },
    /// There was no memory.
    Memory,
}

impl From<Memory> for LoadFault {
    ghost use Rattle.module_path.specs.declared.fault.LoadFault.TheVariants.{Memory as NoMemory};

    ghost from_gives = { λ _ e. e ≡ NoMemory };

    fn from(_: Memory) -> LoadFault {
        LoadFault::Memory
    }
}

impl<T: Drop> From<AllocFailed<T>> for LoadFault {
    ghost use Rattle.module_path.specs.declared.fault.LoadFault.TheVariants.{Memory as NoMemory};

    ghost from_gives = { λ _ e. e ≡ NoMemory };

    fn from(_: AllocFailed<T>) -> LoadFault {
        LoadFault::Memory
    }
}

impl From<AllocError> for LoadFault {
    ghost use Rattle.module_path.specs.declared.fault.LoadFault.TheVariants.{Memory as NoMemory};

    ghost from_gives = { λ _ e. e ≡ NoMemory };

    fn from(_: AllocError) -> LoadFault {
        LoadFault::Memory
    }
}
