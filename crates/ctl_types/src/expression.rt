//! Expressions whose names are resolved, and whose conversions are written.

use crate::{Scalar, Size, SizeList};
use ctl_base::{Node, ScalarKind};
use ctl_stdlib::LibraryId;
use ctl_tree::UnaryOperator;
use fix_num::WholeOp;
use sqlite_items::{Boxed, Items};

/// What is done to a value on its way to where it is taken: it stays, or it is a scalar of the first
/// kind and becomes one of the second.
#[derive(Clone, Copy, PartialEq, Eq)]
pub enum Conversion {
    Same,
    Between(ScalarKind, ScalarKind),
}

/// A comparison of two numbers of one kind.
#[derive(Clone, Copy, PartialEq, Eq)]
pub enum Comparison {
    Equal,
    NotEqual,
    Less,
    AtMost,
    Greater,
    AtLeast,
}

/// The operator of a link.
#[derive(Clone, Copy, PartialEq, Eq)]
pub enum LinkOperator {
    Arithmetic(WholeOp),
    Compare(Comparison),
}

/// The operator of a chain that evaluates an operand only where those before it do not decide.
#[derive(Clone, Copy, PartialEq, Eq)]
pub enum Logic {
    And,
    Or,
}

/// What is called: a function of the program by its number, or a function of the library.
#[derive(Clone, Copy, PartialEq, Eq)]
pub enum Callee {
    Program(u32),
    Library(LibraryId),
}

/// An expression.
#[cycle(expression)]
#[derive(Drop)]
pub enum TypedExpr {
    Literal(Scalar),
    /// A constant of the program by its number.
    Constant(u32),
    /// A variable or parameter by its number.
    Variable(u32),
    /// An operator, the kind that it works in, and its operand.
    Unary(UnaryOperator, ScalarKind, Boxed<Operand>),
    /// A first operand, and the links after it from the left.
    Chain(Boxed<Operand>, Items<TypedLink>),
    /// The operands of `&&`, or those of `||`.
    Logic(Logic, Items<Operand>),
    /// An expression and the steps into its value, from the left.
    Path(Boxed<TypedExpr>, Items<TypedStep>),
    /// The size of an array, which is known without its value.
    Size(Boxed<TypedExpr>, Size),
    Call(Boxed<TypedCall>),
}

/// An expression, and what is done to its value where it is taken.
#[cycle(expression)]
#[derive(Drop)]
pub struct Operand {
    pub value: TypedExpr,
    pub conversion: Conversion,
}

/// An operator, the kind that it works in, what is done to the value on its left, and the operand
/// on its right.
#[cycle(expression)]
#[derive(Drop)]
pub struct TypedLink {
    pub operator: LinkOperator,
    pub kind: ScalarKind,
    pub left: Conversion,
    pub right: Operand,
}

/// A step into a value: an index with its node, or a field by its number.
#[cycle(expression)]
#[derive(Drop)]
pub enum TypedStep {
    Index(TypedExpr, Node),
    Field(u32),
}

/// A variable by its number, and the steps into it from the left.
#[cycle(expression)]
#[derive(Drop)]
pub struct TypedPlace {
    pub variable: u32,
    pub steps: Items<TypedStep>,
}

/// An argument with its node.
#[cycle(expression)]
#[derive(Drop)]
pub enum Argument {
    Input(Operand, Node),
    /// The place of an output, and what is done to its value on the way in. On the way back the
    /// reverse is done.
    Output(TypedPlace, Conversion, Node),
    /// The default of the parameter stands for it.
    Missing,
}

/// A call: what is called, the sizes for its open extents, the arguments in the order of the
/// parameters, and the node.
#[cycle(expression)]
#[derive(Drop)]
pub struct TypedCall {
    pub callee: Callee,
    pub sizes: SizeList,
    pub arguments: Items<Argument>,
    pub node: Node,
}
