//! What a generator notes of a block when it makes it.

/// Whether a block stands at divided positions, and whether it holds a divided Leave of its Frame.
#[derive(Clone, Copy, Debug, PartialEq, Eq)]
pub struct Mark {
    pub divided: bool,
    pub leaves: bool,
}
