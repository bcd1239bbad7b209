//! Places in a program, the kinds of trap and the kinds of scalar.

/// A form of a program: the place of its module in load order, and the place of its own token there.
#[derive(Clone, Copy, Debug, PartialEq, Eq)]
pub struct Node {
    pub module: u32,
    pub token: u32,
}

/// Why the run of a pixel is given up.
#[derive(Clone, Copy, Debug, PartialEq, Eq)]
pub enum TrapKind {
    /// A loop turn is to be taken and none is left.
    Turns,
    /// An index is outside its array.
    Index,
    /// An assertion is false.
    Assert,
}

/// The kinds of scalar, from the narrowest to the widest.
#[derive(Clone, Copy, Debug, PartialEq, Eq)]
pub enum ScalarKind {
    Bool,
    Int,
    Unsigned,
    Half,
    Float,
}
