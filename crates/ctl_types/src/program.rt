//! What a checked program has: structs, constants and functions.

use crate::{Shape, TypedStatement, Value};
use ctl_base::{ByteText, Node};
use ctl_tree::Level;
use sqlite_items::Items;

/// A field of a struct.
#[derive(Drop)]
pub struct Field {
    pub name: ByteText,
    pub shape: Shape,
}

/// A struct by its fields in their order.
#[derive(Drop)]
pub struct Struct {
    pub fields: Items<Field>,
}

/// A constant outside functions.
#[derive(Drop)]
pub struct Constant {
    pub shape: Shape,
    pub value: Value,
}

/// A parameter of a function. One that is not marked as an output is an input.
#[derive(Drop)]
pub struct Parameter {
    pub name: ByteText,
    pub node: Node,
    pub shape: Shape,
    pub is_output: bool,
    pub level: Option<Level>,
    pub default: Option<Value>,
}

/// A function. Its parameters are its first variables.
#[derive(Drop)]
pub struct Function {
    /// With the namespaces in front, as in `a::b::f`.
    pub name: ByteText,
    pub node: Node,
    pub parameters: Items<Parameter>,
    pub result: Option<Shape>,
    /// How many variables are declared in the body.
    pub variables: u32,
    pub body: TypedStatement,
}
