//! Literals, conversions and the rules of operators.

ghost use Rattle.std.specs.Prelude.{◌≡◌, Ok};
ghost use Rattle.ctl_types.specs.declared.expression.TypedExpr.{roll-TypedExpr};
ghost use Rattle.ctl_types.specs.declared.expression.Argument.TheOpen as form;
ghost use Rattle.ctl_types.specs.declared.expression.LinkOperator.TheVariants.{Arithmetic};
ghost use Rattle.ctl_check_rules.specs.Means.{is_number, is_whole, is_bool};
ghost use Rattle.ctl_base.specs.declared.kind.ScalarKind.TheVariants as kind;
ghost use Rattle.ctl_types.specs.declared.scalar.Scalar.TheVariants.{Float};
ghost use Rattle.fix_num.specs.Fixed.{sat};
ghost use Rattle.ctl_types.specs.Typing.{later, number_kind, kind_alone, works, works_alone, rank};
ghost use Rattle.ctl_types.specs.Scalars.{kind_of, operator_kind};
ghost use Rattle.ctl_check_rules.specs.Faults.{Gives, rule_at};
ghost use Rattle.ctl_check_rules.specs.Operators.{short, literal_scalar, whole_scalar, literal_checked, kind_in, scalar_kind_in, scalar_kind, between, operand, unary_rule, link_operator, logic_of, link_rule, with_link, unlinked, chain_checked, base_of_kind, with_operand, join_rule, unjoined, logic_checked, of_kind};

use crate::checked::{Checked, Joined, Linked};
use crate::fault::{ExprFault, broken};
use ctl_base::ScalarKind;
use ctl_scope::CheckKind;
use ctl_tree::{LiteralValue, Operator, UnaryOperator};
use ctl_types::{
    Base, Comparison, Conversion, LinkOperator, Logic, Operand, Scalar, Size, SizeList, TypedExpr,
    TypedLink,
};
use fix_num::{Fix, WholeOp, saturation_clamps};
use sqlite_items::{Boxed, Items};
use std::alloc::Global;

/// A literal.
pub fn check_literal(alloc: Global, value: &LiteralValue, token: u32) -> Checked
    ensures { result ≡ literal_checked value.now token }
{
    let kind = literal_kind(value);
    of_kind(
        alloc,
        TypedExpr::Literal(literal_scalar(value)),
        kind,
        0,
        token,
    )
}

// The kind of a literal.
fn literal_kind(value: &LiteralValue) -> ScalarKind
    ensures { result ≡ kind_of (literal_scalar value.now) }
{
    match value {
        LiteralValue::Whole(n) => whole_kind(*n),
        LiteralValue::Point(_) => ScalarKind::Float,
        LiteralValue::HalfPoint(_) => ScalarKind::Half,
        LiteralValue::Truth(_) => ScalarKind::Bool,
    }
}

// The kind of a whole number.
fn whole_kind(n: u32) -> ScalarKind
    ensures { result ≡ kind_of (whole_scalar (short n)) }
{
    if n < 1 << 31 {
        ScalarKind::Int
    } else {
        ScalarKind::Unsigned
    }
}

// The scalar of a literal.
fn literal_scalar(value: &LiteralValue) -> Scalar
    ensures { result ≡ literal_scalar value.now }
{
    match value {
        LiteralValue::Whole(n) => whole_scalar(*n),
        LiteralValue::Point(x) => point_scalar(*x),
        LiteralValue::HalfPoint(x) => Scalar::Half(x.to_half()),
        LiteralValue::Truth(b) => Scalar::Bool(*b),
    }
}

// A number with a point is a float.
fn point_scalar(x: Fix) -> Scalar
    ensures { result ≡ Float (sat x) }
{
    saturation_clamps();
    Scalar::Float(x)
}

// Up to 2147483647 it is an int, above an unsigned.
fn whole_scalar(n: u32) -> Scalar
    ensures { result ≡ whole_scalar (short n) }
{
    if n < 1 << 31 {
        Scalar::Int(n as i32)
    } else {
        Scalar::Unsigned(n)
    }
}

/// A scalar of a kind.
pub fn of_kind(alloc: Global, form: TypedExpr, kind: ScalarKind, depth: u32, token: u32) -> Checked
    ensures { result ≡ of_kind form kind depth token }
{
    Checked {
        form,
        sizes: SizeList::new(alloc),
        base: Some(Base::Scalar(kind)),
        depth,
        token,
    }
}

// The kind of what arrays hold, where it is a scalar.
fn kind_in(base: Option<Base>) -> Option<ScalarKind>
    ensures { result ≡ kind_in base }
{
    match base {
        Some(Base::Scalar(kind)) => Some(kind),
        Some(Base::Struct(_)) => None,
        None => None,
    }
}

// The kind of a scalar, and none for what is no scalar.
fn scalar_kind_in(sizes: &[Size], base: Option<Base>) -> Option<ScalarKind>
    ensures { result ≡ scalar_kind_in sizes.now base }
{
    if sizes.is_empty() {
        kind_in(base)
    } else {
        None
    }
}

/// The kind of an expression that is a scalar.
pub fn scalar_kind(checked: &Checked) -> Option<ScalarKind>
    ensures { result ≡ scalar_kind checked.now }
{
    scalar_kind_in(checked.sizes.as_slice(), checked.base)
}

/// A scalar of one kind becomes one of another.
pub fn between(from: ScalarKind, to: ScalarKind) -> Conversion
    ensures { result ≡ between from to }
{
    if from == to {
        Conversion::Same
    } else {
        Conversion::Between(from, to)
    }
}

// A bool counts as an int.
fn number_kind(kind: ScalarKind) -> ScalarKind
    ensures { result ≡ number_kind kind }
{
    match kind {
        ScalarKind::Bool => ScalarKind::Int,
        ScalarKind::Int => ScalarKind::Int,
        ScalarKind::Unsigned => ScalarKind::Unsigned,
        ScalarKind::Half => ScalarKind::Half,
        ScalarKind::Float => ScalarKind::Float,
    }
}

fn rank(kind: ScalarKind) -> u32
    ensures { result ≡ rank kind }
{
    match kind {
        ScalarKind::Bool => 0,
        ScalarKind::Int => 1,
        ScalarKind::Unsigned => 2,
        ScalarKind::Half => 3,
        ScalarKind::Float => 4,
    }
}

// The later of two kinds.
fn later(a: ScalarKind, b: ScalarKind) -> ScalarKind
    ensures { result ≡ later a b }
{
    if rank(a) < rank(b) { b } else { a }
}

// The kind in which an operator works before its operand.
fn kind_alone(operator: UnaryOperator, kind: ScalarKind) -> ScalarKind
    ensures { result ≡ kind_alone operator kind }
{
    match operator {
        UnaryOperator::Minus => number_kind(kind),
        UnaryOperator::Plus => number_kind(kind),
        UnaryOperator::Not => ScalarKind::Bool,
        UnaryOperator::BitNot => number_kind(kind),
    }
}

// Whether a kind is that of numbers.
fn is_number(kind: ScalarKind) -> bool
    ensures { result ≡ is_number kind }
{
    match kind {
        ScalarKind::Bool => false,
        ScalarKind::Int => true,
        ScalarKind::Unsigned => true,
        ScalarKind::Half => true,
        ScalarKind::Float => true,
    }
}

// Whether a kind is that of whole numbers.
fn is_whole(kind: ScalarKind) -> bool
    ensures { result ≡ is_whole kind }
{
    match kind {
        ScalarKind::Bool => false,
        ScalarKind::Int => true,
        ScalarKind::Unsigned => true,
        ScalarKind::Half => false,
        ScalarKind::Float => false,
    }
}

// Whether a kind is that of truth values.
fn is_bool(kind: ScalarKind) -> bool
    ensures { result ≡ is_bool kind }
{
    match kind {
        ScalarKind::Bool => true,
        ScalarKind::Int => false,
        ScalarKind::Unsigned => false,
        ScalarKind::Half => false,
        ScalarKind::Float => false,
    }
}

// Whether an operator can work in a kind before its operand.
#[tactic(auto, using(crate::proofs::Working::minus_works, crate::proofs::Working::plus_works, crate::proofs::Working::not_works, crate::proofs::Working::flip_works))]
fn works_alone(operator: UnaryOperator, kind: ScalarKind) -> bool
    ensures { result ≡ works_alone operator kind }
{
    match operator {
        UnaryOperator::Minus => is_number(kind),
        UnaryOperator::Plus => is_number(kind),
        UnaryOperator::Not => is_bool(kind),
        UnaryOperator::BitNot => is_whole(kind),
    }
}

// Whether an operator of a link can work in a kind.
#[tactic(auto, using(crate::proofs::Working::comparison_works))]
fn works(operator: LinkOperator, kind: ScalarKind) -> bool
    ensures { result ≡ works operator kind }
{
    match operator {
        LinkOperator::Compare(_) => is_number(kind),
        LinkOperator::Arithmetic(operation) => works_on(operation, kind),
    }
}

// Whether an operation can work in a kind: the four with fractions in all, the others in whole numbers.
#[tactic(auto, using(crate::proofs::Working::add_works, crate::proofs::Working::sub_works, crate::proofs::Working::mul_works, crate::proofs::Working::div_works, crate::proofs::Working::rem_works, crate::proofs::Working::and_works, crate::proofs::Working::or_works, crate::proofs::Working::xor_works, crate::proofs::Working::shl_works, crate::proofs::Working::shr_works))]
fn works_on(operation: WholeOp, kind: ScalarKind) -> bool
    ensures { result ≡ works (Arithmetic operation) kind }
{
    match operation {
        WholeOp::Add => is_number(kind),
        WholeOp::Sub => is_number(kind),
        WholeOp::Mul => is_number(kind),
        WholeOp::Div => is_number(kind),
        WholeOp::Rem => is_whole(kind),
        WholeOp::And => is_whole(kind),
        WholeOp::Or => is_whole(kind),
        WholeOp::Xor => is_whole(kind),
        WholeOp::Shl => is_whole(kind),
        WholeOp::Shr => is_whole(kind),
    }
}

// The kind of what an operator makes.
fn operator_kind(operator: LinkOperator, kind: ScalarKind) -> ScalarKind
    ensures { result ≡ operator_kind operator kind }
{
    match operator {
        LinkOperator::Compare(_) => ScalarKind::Bool,
        LinkOperator::Arithmetic(_) => kind,
    }
}

/// An expression with what is done to its value.
pub fn operand(value: TypedExpr, conversion: Conversion) -> Operand
    ensures { result ≡ operand value conversion }
{
    Operand { value, conversion }
}

/// The rule of an operator before its operand.
pub fn check_unary(
    alloc: Global,
    unit: u32,
    operator: UnaryOperator,
    token: u32,
    checked: Checked,
) -> Result<Checked, ExprFault>
    ensures { Gives result (rule_at unit token (unary_rule operator token checked)) }
{
    let Some(kind) = scalar_kind(&checked) else {
        return Err(broken(unit, token, CheckKind::Mismatch));
    };
    let work = kind_alone(operator, kind);
    if !works_alone(operator, work) {
        return Err(broken(unit, token, CheckKind::Mismatch));
    }
    unary_form(alloc, operator, work, kind, token, checked)
}

// An operator that works in a kind, before its operand.
fn unary_form(
    alloc: Global,
    operator: UnaryOperator,
    work: ScalarKind,
    kind: ScalarKind,
    token: u32,
    checked: Checked,
) -> Result<Checked, ExprFault>
    ensures { Gives result (Ok (of_kind (roll-TypedExpr (form.Unary operator work (operand checked.form (between kind work)))) work checked.depth token)) }
{
    let depth = checked.depth;
    let inner = Boxed::new(alloc, operand(checked.form, between(kind, work)))?;
    Ok(of_kind(
        alloc,
        TypedExpr::Unary(operator, work, inner),
        work,
        depth,
        token,
    ))
}

// The operator that a link has in the typed form.
fn link_operator(operator: Operator) -> Option<LinkOperator>
    ensures { result ≡ link_operator operator }
{
    match operator {
        Operator::Or => None,
        Operator::And => None,
        Operator::BitOr => Some(LinkOperator::Arithmetic(WholeOp::Or)),
        Operator::BitXor => Some(LinkOperator::Arithmetic(WholeOp::Xor)),
        Operator::BitAnd => Some(LinkOperator::Arithmetic(WholeOp::And)),
        Operator::Equal => Some(LinkOperator::Compare(Comparison::Equal)),
        Operator::NotEqual => Some(LinkOperator::Compare(Comparison::NotEqual)),
        Operator::Less => Some(LinkOperator::Compare(Comparison::Less)),
        Operator::AtMost => Some(LinkOperator::Compare(Comparison::AtMost)),
        Operator::Greater => Some(LinkOperator::Compare(Comparison::Greater)),
        Operator::AtLeast => Some(LinkOperator::Compare(Comparison::AtLeast)),
        Operator::ShiftLeft => Some(LinkOperator::Arithmetic(WholeOp::Shl)),
        Operator::ShiftRight => Some(LinkOperator::Arithmetic(WholeOp::Shr)),
        Operator::Add => Some(LinkOperator::Arithmetic(WholeOp::Add)),
        Operator::Subtract => Some(LinkOperator::Arithmetic(WholeOp::Sub)),
        Operator::Multiply => Some(LinkOperator::Arithmetic(WholeOp::Mul)),
        Operator::Divide => Some(LinkOperator::Arithmetic(WholeOp::Div)),
        Operator::Remainder => Some(LinkOperator::Arithmetic(WholeOp::Rem)),
    }
}

/// Whether a chain is one of `&&` or of `||`.
pub fn logic_of(operator: Operator) -> Option<Logic>
    ensures { result ≡ logic_of operator }
{
    match operator {
        Operator::Or => Some(Logic::Or),
        Operator::And => Some(Logic::And),
        Operator::BitOr => None,
        Operator::BitXor => None,
        Operator::BitAnd => None,
        Operator::Equal => None,
        Operator::NotEqual => None,
        Operator::Less => None,
        Operator::AtMost => None,
        Operator::Greater => None,
        Operator::AtLeast => None,
        Operator::ShiftLeft => None,
        Operator::ShiftRight => None,
        Operator::Add => None,
        Operator::Subtract => None,
        Operator::Multiply => None,
        Operator::Divide => None,
        Operator::Remainder => None,
    }
}

/// The rule of a link, behind those before it.
pub fn check_link(
    unit: u32,
    token: u32,
    operator: Operator,
    before: Linked,
    checked: Checked,
) -> Result<Linked, ExprFault>
    ensures { Gives result (rule_at unit token (link_rule before operator checked)) }
{
    let Some(operator) = link_operator(operator) else {
        return Err(broken(unit, token, CheckKind::Mismatch));
    };
    let Some(left) = before.left else {
        return Err(broken(unit, token, CheckKind::Mismatch));
    };
    let Some(right) = scalar_kind(&checked) else {
        return Err(broken(unit, token, CheckKind::Mismatch));
    };
    let work = number_kind(later(left, right));
    if !works(operator, work) {
        return Err(broken(unit, token, CheckKind::Mismatch));
    }
    with_link(before, checked, operator, work, left, right)
}

// The links so far with one more.
fn with_link(
    before: Linked,
    checked: Checked,
    operator: LinkOperator,
    kind: ScalarKind,
    left: ScalarKind,
    right: ScalarKind,
) -> Result<Linked, ExprFault>
    ensures { Gives result (Ok (with_link before checked operator kind left right)) }
{
    let depth = before.depth.max(checked.depth);
    let mut links = before.links;
    links.push(TypedLink {
        operator,
        kind,
        left: between(left, kind),
        right: operand(checked.form, between(right, kind)),
    })?;
    Ok(Linked {
        links,
        left: Some(operator_kind(operator, kind)),
        depth,
    })
}

/// A chain before its first link.
pub fn unlinked(alloc: Global, first: &Checked) -> Linked
    ensures { result ≡ unlinked first.now }
{
    Linked {
        links: Items::new(alloc),
        left: scalar_kind(first),
        depth: first.depth,
    }
}

// What holds a scalar of this kind.
fn base_of_kind(kind: Option<ScalarKind>) -> Option<Base>
    ensures { result ≡ base_of_kind kind }
{
    match kind {
        Some(kind) => Some(Base::Scalar(kind)),
        None => None,
    }
}

/// The chain of links.
pub fn chain_form(
    alloc: Global,
    first: Checked,
    token: u32,
    after: Linked,
) -> Result<Checked, ExprFault>
    ensures { Gives result (Ok (chain_checked first token after)) }
{
    let inner = Boxed::new(alloc, operand(first.form, Conversion::Same))?;
    Ok(Checked {
        form: TypedExpr::Chain(inner, after.links),
        sizes: SizeList::new(alloc),
        base: base_of_kind(after.left),
        depth: after.depth,
        token,
    })
}

/// The rule of an operand of `&&` or `||`, behind those before it.
pub fn check_joined(
    unit: u32,
    token: u32,
    before: Joined,
    checked: Checked,
) -> Result<Joined, ExprFault>
    ensures { Gives result (rule_at unit token (join_rule before checked)) }
{
    if !before.fit {
        return Err(broken(unit, token, CheckKind::Mismatch));
    }
    let Some(kind) = scalar_kind(&checked) else {
        return Err(broken(unit, token, CheckKind::Mismatch));
    };
    with_operand(before, checked, kind)
}

// Operands so far with one more.
fn with_operand(before: Joined, checked: Checked, kind: ScalarKind) -> Result<Joined, ExprFault>
    ensures { Gives result (Ok (with_operand before checked kind)) }
{
    let depth = before.depth.max(checked.depth);
    let mut operands = before.operands;
    operands.push(operand(checked.form, between(kind, ScalarKind::Bool)))?;
    Ok(Joined {
        operands,
        fit: true,
        depth,
    })
}

/// The first operand of `&&` or `||`. Whether it is a scalar is said at the first link.
pub fn unjoined(alloc: Global, first: Checked) -> Result<Joined, ExprFault>
    ensures { Gives result (Ok (unjoined first)) }
{
    let depth = first.depth;
    let mut operands = Items::new(alloc);
    let Some(kind) = scalar_kind(&first) else {
        return Ok(Joined {
            operands,
            fit: false,
            depth,
        });
    };
    operands.push(operand(first.form, between(kind, ScalarKind::Bool)))?;
    Ok(Joined {
        operands,
        fit: true,
        depth,
    })
}

/// The chain of operands.
pub fn logic_form(alloc: Global, logic: Logic, token: u32, after: Joined) -> Checked
    ensures { result ≡ logic_checked logic token after }
{
    of_kind(
        alloc,
        TypedExpr::Logic(logic, after.operands),
        ScalarKind::Bool,
        after.depth,
        token,
    )
}
