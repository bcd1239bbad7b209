//! What a checked program is, and what it does: values and their shapes, the typed forms of expressions and
//! statements, the program with its invariant, and the definition of its run.
#![tactic(auto)]

pub use expression::{
    Argument, Callee, Comparison, Conversion, LinkOperator, Logic, Operand, TypedCall, TypedExpr,
    TypedLink, TypedPlace, TypedStep,
};
pub use laws::{example, parts_are_stretches, words_are_counted, words_go_back};
pub use program::{Constant, Field, Function, Parameter, Struct};
pub use row::{Row, RowParam, row_of};
pub use scalar::Scalar;
pub use shape::{Base, Extent, LocalShape, OpenSizes, Shape, Size, SizeList};
pub use statement::{
    Arm, Assignment, Declaration, ForStart, Initialiser, PrintItem, TypedStatement,
};
pub use value::Value;

mod expression;
mod laws;
mod program;
mod row;
mod scalar;
mod shape;
mod statement;
mod value;
