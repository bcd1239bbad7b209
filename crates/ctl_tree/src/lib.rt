//! The tokens of a source text, the forms that they spell, and the definitions of both: which
//! lists of tokens stand for a text, and which tokens spell which module.
#![tactic(auto)]

pub use declaration::{
    ArraySize, BraceList, Constant, Initialiser, ShapeKind, ShapeName, Variable,
};
pub use definition::{
    Definition, Direction, Field, Function, Import, Level, Module, Namespace, Parameter,
    SizedShape, Struct,
};
pub use expression::{
    Call, Chain, Expr, FieldAccess, Index, Link, Literal, LiteralValue, Operator, Path,
    QualifiedName, Step, Unary, UnaryOperator,
};
pub use fault::{LexKind, SyntaxKind};
pub use keyword::Keyword;
pub use laws::{faults_spell_none, one_module, one_syntax_fault, tokens_are_spelt, tokens_stand};
pub use list::TokenList;
pub use sign::Sign;
pub use statement::{
    Arm, Assignment, Block, Empty, For, ForStart, If, Place, Print, PrintItem, PrintText, Return,
    Statement, While,
};
pub use token::{Token, TokenKind};
pub use units::{Unit, Units};

mod declaration;
mod definition;
mod expression;
mod fault;
mod keyword;
mod laws;
mod list;
mod sign;
mod statement;
mod token;
mod units;
