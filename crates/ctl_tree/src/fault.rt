//! Why a text has no tokens, and why tokens spell no module.

/// What is wrong at the first byte at which no token, blank or whole comment begins.
#[derive(Clone, Copy, Debug, PartialEq, Eq)]
pub enum LexKind {
    /// Any other byte that begins no token.
    NoToken,
    /// A `/*` without a `*/` after it.
    OpenComment,
    /// A `"` whose text is not closed before the line or the source ends.
    OpenText,
    /// The spelling of a number that is none of the language's numbers.
    Literal,
    /// A byte of 128 or more outside comments and texts.
    NotAscii,
}

/// Why the tokens of a text spell no module.
#[derive(Clone, Copy, Debug, PartialEq, Eq)]
pub enum SyntaxKind {
    /// The tokens before this one begin a module that is not nested too deeply, and with this one
    /// they begin none of any nesting. At the number of tokens: the whole list begins a module and
    /// is none.
    NotHere,
    /// The tokens before this one begin a module that is not nested too deeply, and each that they
    /// begin with this one is nested too deeply. There is one.
    Depth,
}
