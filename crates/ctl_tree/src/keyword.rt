//! The keywords.

/// A word that is no name. The variant is the word with a capital.
#[derive(Clone, Copy, Debug, PartialEq, Eq)]
pub enum Keyword {
    Bool,
    Const,
    Ctlversion,
    Else,
    False,
    Float,
    For,
    Half,
    If,
    Import,
    Input,
    Int,
    Namespace,
    Output,
    Print,
    Return,
    String,
    Struct,
    True,
    Uniform,
    Unsigned,
    Varying,
    Void,
    While,
}
