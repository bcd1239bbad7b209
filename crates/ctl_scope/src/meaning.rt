//! What a name stands for.

use ctl_stdlib::LibraryId;

/// What a name stands for: a variable, or a definition by its number among those of its kind.
#[derive(Clone, Copy, Debug, PartialEq, Eq)]
pub enum Meaning {
    Variable(u32),
    Constant(u32),
    Function(u32),
    Struct(u32),
    Namespace,
    /// A function of the library.
    Library(LibraryId),
}
