//! Statements. The large ones are held in boxes, so that a list of them is small.

use crate::{Call, Constant, Expr, QualifiedName, Step, Variable};
use ctl_base::ByteText;
use sqlite_items::{Boxed, Items};

/// A variable, and the steps into it.
#[derive(Drop)]
pub struct Place {
    pub root: QualifiedName,
    pub steps: Items<Step>,
}

/// An assignment. Its own token is its `=`.
#[derive(Drop)]
pub struct Assignment {
    pub place: Place,
    pub value: Expr,
    pub token: u32,
}

/// An empty statement. Its own token is its `;`.
#[derive(Drop)]
pub struct Empty {
    pub token: u32,
}

/// A `return`, with its value where it has one. Its own token is its keyword.
#[derive(Drop)]
pub struct Return {
    pub value: Option<Expr>,
    pub token: u32,
}

/// What `print` prints. Its own token is its keyword.
#[derive(Drop)]
pub struct Print {
    /// At least one.
    pub items: Items<PrintItem>,
    pub token: u32,
}

/// A text or a value to be printed.
#[derive(Drop)]
pub enum PrintItem {
    Text(PrintText),
    Expr(Expr),
}

/// A text as the bytes that it stands for. Its own token is itself.
#[derive(Drop)]
pub struct PrintText {
    pub text: ByteText,
    pub token: u32,
}

/// How a `for` begins.
#[derive(Drop)]
pub enum ForStart {
    Variable(Variable),
    Assignment(Assignment),
}

/// A statement.
#[cycle(statement)]
#[derive(Drop)]
pub enum Statement {
    Block(Block),
    Constant(Boxed<Constant>),
    Variable(Boxed<Variable>),
    Assignment(Boxed<Assignment>),
    Call(Boxed<Call>),
    If(If),
    While(Boxed<While>),
    For(Boxed<For>),
    Return(Boxed<Return>),
    Print(Print),
    Empty(Empty),
}

/// Statements in curly brackets. Its own token is its `{`.
#[cycle(statement)]
#[derive(Drop)]
pub struct Block {
    pub statements: Items<Statement>,
    pub token: u32,
}

/// The arms of an `if`, of which there is at least one, and what stands after the last `else`.
/// Its own token is its keyword.
#[cycle(statement)]
#[derive(Drop)]
pub struct If {
    pub arms: Items<Arm>,
    pub otherwise: Option<Boxed<Statement>>,
    pub token: u32,
}

/// A test and what is done where it holds. An arm has no token of its own.
#[cycle(statement)]
#[derive(Drop)]
pub struct Arm {
    pub test: Expr,
    pub body: Boxed<Statement>,
}

/// A `while`. Its own token is its keyword.
#[cycle(statement)]
#[derive(Drop)]
pub struct While {
    pub test: Expr,
    pub body: Statement,
    pub token: u32,
}

/// A `for`. Its own token is its keyword.
#[cycle(statement)]
#[derive(Drop)]
pub struct For {
    pub start: ForStart,
    pub test: Expr,
    pub next: Assignment,
    pub body: Statement,
    pub token: u32,
}
