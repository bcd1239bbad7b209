//! Shapes, initialisers, constants and variables.

use crate::{Expr, QualifiedName};
use ctl_base::ByteText;
use sqlite_items::{Boxed, Items};

/// What a shape is called. `unsigned` and `unsigned int` are one.
#[derive(Drop)]
pub enum ShapeKind {
    Bool,
    Int,
    Unsigned,
    Half,
    Float,
    /// A structure.
    Named(Boxed<QualifiedName>),
}

/// The shape of a value before its array sizes. Its own token is its last.
#[derive(Drop)]
pub struct ShapeName {
    pub kind: ShapeKind,
    pub token: u32,
}

/// The size of an array in square brackets, or that it is left open. Its own token is its `[`.
#[derive(Drop)]
pub struct ArraySize {
    pub size: Option<Expr>,
    pub token: u32,
}

/// A value to begin with: an expression, or a list in curly brackets.
#[cycle(initialiser)]
#[derive(Drop)]
pub enum Initialiser {
    Expr(Expr),
    List(BraceList),
}

/// At least one initialiser in curly brackets. Its own token is its `{`.
#[cycle(initialiser)]
#[derive(Drop)]
pub struct BraceList {
    pub elements: Items<Initialiser>,
    pub token: u32,
}

/// A constant. Its own token is its name.
#[derive(Drop)]
pub struct Constant {
    pub shape: ShapeName,
    pub name: ByteText,
    pub sizes: Items<ArraySize>,
    pub value: Initialiser,
    pub token: u32,
}

/// The declaration of a variable. Its own token is its name.
#[derive(Drop)]
pub struct Variable {
    pub shape: ShapeName,
    pub name: ByteText,
    pub sizes: Items<ArraySize>,
    pub value: Option<Initialiser>,
    pub token: u32,
}
