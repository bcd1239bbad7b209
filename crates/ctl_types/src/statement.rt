//! Statements whose names are resolved, and whose conversions are written.

use crate::{LocalShape, Operand, Shape, TypedCall, TypedExpr, TypedPlace};
use ctl_base::{ByteText, Node};
use sqlite_items::{Boxed, Items};

/// A value to begin with: an expression, elements of one shape, or the fields of a struct by its
/// number.
#[derive(Drop)]
pub enum Initialiser {
    Value(Operand),
    Elements(Shape, Items<Initialiser>),
    Fields(u32, Items<Initialiser>),
}

/// The declaration of a variable, or of a constant inside a function. Without a first value the
/// variable begins at zero in all its scalars.
#[derive(Drop)]
pub struct Declaration {
    pub variable: u32,
    pub is_constant: bool,
    pub shape: LocalShape,
    pub first: Option<Initialiser>,
}

/// An assignment to a place.
#[derive(Drop)]
pub struct Assignment {
    pub place: TypedPlace,
    pub value: Operand,
}

/// How a `for` begins.
#[derive(Drop)]
pub enum ForStart {
    Declare(Declaration),
    Assign(Assignment),
}

/// What `print` prints: a text as its bytes, or a value.
#[derive(Drop)]
pub enum PrintItem {
    Text(ByteText),
    Value(TypedExpr),
}

/// A statement.
#[cycle(statement)]
#[derive(Drop)]
pub enum TypedStatement {
    Empty,
    Block(Items<TypedStatement>),
    Declare(Boxed<Declaration>),
    Assign(Boxed<Assignment>),
    Call(Boxed<TypedCall>),
    /// The arms from the first, and what stands after the last `else`.
    If(Items<Arm>, Option<Boxed<TypedStatement>>),
    /// The test, the body and the node.
    While(Boxed<Operand>, Boxed<TypedStatement>, Node),
    /// How it begins, the test, the assignment after each turn, the body and the node.
    For(Boxed<ForStart>, Boxed<Operand>, Boxed<Assignment>, Boxed<TypedStatement>, Node),
    Return(Option<Boxed<Operand>>),
    Print(Items<PrintItem>),
}

/// A test, and what is done where it is true.
#[cycle(statement)]
#[derive(Drop)]
pub struct Arm {
    pub test: Operand,
    pub body: Boxed<TypedStatement>,
}
