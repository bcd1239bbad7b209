//! Definitions and modules.

use crate::{ArraySize, Block, Constant, Initialiser, ShapeName};
use ctl_base::ByteText;
use sqlite_items::Items;

/// Whether a parameter is said to be an input or an output.
#[derive(Clone, Copy, Debug, PartialEq, Eq)]
pub enum Direction {
    Input,
    Output,
}

/// Whether a parameter is said to be uniform or varying.
#[derive(Clone, Copy, Debug, PartialEq, Eq)]
pub enum Level {
    Uniform,
    Varying,
}

/// A parameter. Its own token is its name.
#[derive(Drop)]
pub struct Parameter {
    pub direction: Option<Direction>,
    pub level: Option<Level>,
    pub token: u32,
    pub shape: ShapeName,
    pub name: ByteText,
    pub sizes: Items<ArraySize>,
    pub value: Option<Initialiser>,
}

/// A shape with the sizes of its arrays, each of which is stated.
#[derive(Drop)]
pub struct SizedShape {
    pub shape: ShapeName,
    pub sizes: Items<ArraySize>,
}

/// A function. Its own token is its name.
#[derive(Drop)]
pub struct Function {
    /// None is `void`.
    pub result: Option<SizedShape>,
    pub name: ByteText,
    pub parameters: Items<Parameter>,
    pub body: Block,
    pub token: u32,
}

/// A field of a structure. Its own token is its name.
#[derive(Drop)]
pub struct Field {
    pub shape: ShapeName,
    pub name: ByteText,
    /// Each is stated.
    pub sizes: Items<ArraySize>,
    pub token: u32,
}

/// A structure, with at least one field. Its own token is its name.
#[derive(Drop)]
pub struct Struct {
    pub name: ByteText,
    pub fields: Items<Field>,
    pub token: u32,
}

/// A definition.
#[cycle(definition)]
#[derive(Drop)]
pub enum Definition {
    Namespace(Namespace),
    Struct(Struct),
    Constant(Constant),
    Function(Function),
}

/// Definitions in curly brackets under a name. Its own token is its name.
#[cycle(definition)]
#[derive(Drop)]
pub struct Namespace {
    pub name: ByteText,
    pub definitions: Items<Definition>,
    pub token: u32,
}

/// An import of a module by its name, as the bytes that its text stands for. Its own token is
/// that text.
#[derive(Drop)]
pub struct Import {
    pub name: ByteText,
    pub token: u32,
}

/// A module.
#[derive(Drop)]
pub struct Module {
    pub imports: Items<Import>,
    pub definitions: Items<Definition>,
}
