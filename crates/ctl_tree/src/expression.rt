//! Expressions. Each form keeps its own token by the token's place in the list of its module.
//! Round brackets make no form.

ghost use Rattle.std.specs.Prelude.{◌≡◌};
ghost use Rattle.ctl_tree.specs.OwnTokens.{own_token, step_token};

use ctl_base::ByteText;
use fix_num::Fix;
use sqlite_items::{Boxed, Items};

/// A name with the namespaces before it, as `a::b`. Its own token is the name.
#[derive(Drop)]
pub struct QualifiedName {
    /// Whether `::` stands in front.
    pub is_global: bool,
    pub token: u32,
    /// The names before the last, from the left.
    pub spaces: Items<ByteText>,
    /// The last name.
    pub name: ByteText,
}

/// The value of a literal.
#[derive(Clone, Copy, Debug, PartialEq, Eq)]
pub enum LiteralValue {
    /// Up to 2147483647 it is an int, above an unsigned.
    Whole(u32),
    /// A float.
    Point(Fix),
    /// A half.
    HalfPoint(Fix),
    /// A bool.
    Truth(bool),
}

/// An operator before its operand.
#[derive(Clone, Copy, Debug, PartialEq, Eq)]
pub enum UnaryOperator {
    /// `-`
    Minus,
    /// `+`
    Plus,
    /// `!`
    Not,
    /// `~`
    BitNot,
}

/// An operator between two operands, from the loosest to the tightest.
#[derive(Clone, Copy, Debug, PartialEq, Eq)]
pub enum Operator {
    /// `||`
    Or,
    /// `&&`
    And,
    /// `|`
    BitOr,
    /// `^`
    BitXor,
    /// `&`
    BitAnd,
    /// `==`
    Equal,
    /// `!=`
    NotEqual,
    /// `<`
    Less,
    /// `<=`
    AtMost,
    /// `>`
    Greater,
    /// `>=`
    AtLeast,
    /// `<<`
    ShiftLeft,
    /// `>>`
    ShiftRight,
    /// `+`
    Add,
    /// `-`
    Subtract,
    /// `*`
    Multiply,
    /// `/`
    Divide,
    /// `%`
    Remainder,
}

/// A number or a truth value as it is written.
#[derive(Drop)]
pub struct Literal {
    pub value: LiteralValue,
    pub token: u32,
}

/// An expression.
#[cycle(expression)]
#[derive(Drop)]
pub enum Expr {
    Literal(Literal),
    Name(QualifiedName),
    Call(Boxed<Call>),
    Path(Path),
    Unary(Unary),
    Chain(Chain),
}

/// A call of a function. Its own token is its `(`.
#[cycle(expression)]
#[derive(Drop)]
pub struct Call {
    pub name: QualifiedName,
    pub arguments: Items<Expr>,
    pub token: u32,
}

/// An expression and the steps into it, from the left, of which there is at least one.
#[cycle(expression)]
#[derive(Drop)]
pub struct Path {
    pub root: Boxed<Expr>,
    pub steps: Items<Step>,
}

/// A step into a value: an index or a field.
#[cycle(expression)]
#[derive(Drop)]
pub enum Step {
    Index(Index),
    Field(FieldAccess),
}

/// An index in square brackets. Its own token is its `[`.
#[cycle(expression)]
#[derive(Drop)]
pub struct Index {
    pub index: Expr,
    pub token: u32,
}

/// A field after a point. Its own token is its name.
#[derive(Drop)]
pub struct FieldAccess {
    pub name: ByteText,
    pub token: u32,
}

/// An operator and its operand. Its own token is the operator.
#[cycle(expression)]
#[derive(Drop)]
pub struct Unary {
    pub operator: UnaryOperator,
    pub operand: Boxed<Expr>,
    pub token: u32,
}

/// A first operand and the links after it, from the left, of which there is at least one. All
/// operators are of one level. Its own token is the operator of its last link.
#[cycle(expression)]
#[derive(Drop)]
pub struct Chain {
    pub first: Boxed<Expr>,
    pub links: Items<Link>,
    pub token: u32,
}

/// An operator and the operand after it. Its own token is the operator.
#[cycle(expression)]
#[derive(Drop)]
pub struct Link {
    pub operator: Operator,
    pub token: u32,
    pub operand: Expr,
}

impl Expr {
    /// The own token. That of a path is its last step's.
    pub fn token(&self) -> u32
        ensures { result ≡ own_token self.now }
    {
        match self {
            Expr::Literal(literal) => literal.token,
            Expr::Name(name) => name.token,
            Expr::Call(call) => call.get().token,
            Expr::Path(path) => match path.steps.as_slice().last() {
                Some(step) => step.token(),
                None => 0,
            },
            Expr::Unary(unary) => unary.token,
            Expr::Chain(chain) => chain.token,
        }
    }
}

impl Step {
    /// The own token.
    pub fn token(&self) -> u32
        ensures { result ≡ step_token self.now }
    {
        match self {
            Step::Index(index) => index.token,
            Step::Field(field) => field.token,
        }
    }
}
