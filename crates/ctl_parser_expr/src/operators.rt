//! What single tokens are in an expression.

ghost use Rattle.std.specs.Prelude.{◌≡◌, ◌≢◌, ◌<◌, ◌≤◌, ℕ, None, IsSome, IfSome, IfNone};
ghost use Rattle.ctl_tree.specs.Names.{literal_of, unary_operator_of, operator_of, operator_named, operator_level};
ghost use Rattle.grammar_machine.specs.Front.{begins_expr as expr_begins};

use ctl_tree::{Keyword, LiteralValue, Operator, Sign, TokenKind, UnaryOperator};

/// How many levels of operators there are.
pub const LEVELS: u32 = 10;

/// The value of a literal.
pub fn literal_value(kind: Option<TokenKind>) -> Option<LiteralValue>
    ensures { result ≡ literal_of kind }
{
    match &kind {
        None => None,
        Some(kind) => kind.literal(),
    }
}

/// The operator before an operand that a token is.
pub fn unary_operator(kind: Option<TokenKind>) -> Option<UnaryOperator>
    ensures { result ≡ unary_operator_of kind }
{
    match kind? {
        TokenKind::Sign(Sign::Minus) => Some(UnaryOperator::Minus),
        TokenKind::Sign(Sign::Plus) => Some(UnaryOperator::Plus),
        TokenKind::Sign(Sign::Exclamation) => Some(UnaryOperator::Not),
        TokenKind::Sign(Sign::Tilde) => Some(UnaryOperator::BitNot),
        _ => None,
    }
}

/// The operator of a level that a token is.
pub fn operator(level: u32, kind: Option<TokenKind>) -> Option<Operator>
    ensures { result ≡ operator_of level kind }
{
    let Some(TokenKind::Sign(sign)) = kind else {
        return None;
    };
    let operator = named(sign)?;
    if level_of_operator(operator) == level {
        Some(operator)
    } else {
        None
    }
}

/// The level of the operator that a token is, where it lies between two levels.
pub fn level_between(from: u32, to: u32, kind: Option<TokenKind>) -> Option<u32>
    ensures within { IfSome result (λ level. (from ≤ level) × (level < to) × IsSome (operator_of level kind) × ((other : ℕ) → other ≢ level → operator_of other kind ≡ None)) }
    ensures none { IfNone result ((level : ℕ) → from ≤ level → level < to → operator_of level kind ≡ None) }
{
    let Some(TokenKind::Sign(sign)) = kind else {
        return None;
    };
    let level = level_of_operator(named(sign)?);
    if from <= level && level < to {
        Some(level)
    } else {
        None
    }
}

fn named(sign: Sign) -> Option<Operator>
    ensures { result ≡ operator_named sign }
{
    match sign {
        Sign::OrOr => Some(Operator::Or),
        Sign::AndAnd => Some(Operator::And),
        Sign::Bar => Some(Operator::BitOr),
        Sign::Caret => Some(Operator::BitXor),
        Sign::Ampersand => Some(Operator::BitAnd),
        Sign::EqualTo => Some(Operator::Equal),
        Sign::NotEqualTo => Some(Operator::NotEqual),
        Sign::LessThan => Some(Operator::Less),
        Sign::AtMost => Some(Operator::AtMost),
        Sign::GreaterThan => Some(Operator::Greater),
        Sign::AtLeast => Some(Operator::AtLeast),
        Sign::ShiftLeft => Some(Operator::ShiftLeft),
        Sign::ShiftRight => Some(Operator::ShiftRight),
        Sign::Plus => Some(Operator::Add),
        Sign::Minus => Some(Operator::Subtract),
        Sign::Star => Some(Operator::Multiply),
        Sign::Slash => Some(Operator::Divide),
        Sign::Percent => Some(Operator::Remainder),
        _ => None,
    }
}

fn level_of_operator(operator: Operator) -> u32
    ensures { result ≡ operator_level operator }
{
    match operator {
        Operator::Or => 0,
        Operator::And => 1,
        Operator::BitOr => 2,
        Operator::BitXor => 3,
        Operator::BitAnd => 4,
        Operator::Equal | Operator::NotEqual => 5,
        Operator::Less | Operator::AtMost | Operator::Greater | Operator::AtLeast => 6,
        Operator::ShiftLeft | Operator::ShiftRight => 7,
        Operator::Add | Operator::Subtract => 8,
        Operator::Multiply | Operator::Divide | Operator::Remainder => 9,
    }
}

/// Whether a token begins an expression.
pub fn begins_expr(kind: Option<TokenKind>) -> bool
    ensures { result ≡ expr_begins kind }
{
    matches!(
        kind,
        Some(
            TokenKind::Name
                | TokenKind::Whole(_)
                | TokenKind::Point(_)
                | TokenKind::HalfPoint(_)
                | TokenKind::Word(Keyword::True | Keyword::False)
                | TokenKind::Sign(
                    Sign::ColonColon
                        | Sign::OpenRound
                        | Sign::Minus
                        | Sign::Plus
                        | Sign::Exclamation
                        | Sign::Tilde
                )
        )
    )
}
