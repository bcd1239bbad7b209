//! Operators and conversions on scalars.

ghost use Rattle.std.specs.Prelude.{◌≡◌, ◌∷◌, Some, None, pos, true, false};
ghost use Rattle.fix_num.specs.declared.TheConstants.{FRACTION};
ghost use Rattle.ctl_base.specs.declared.kind.ScalarKind.TheVariants as kind;
ghost use Rattle.ctl_types.specs.Scalars.{kind_of, word_of, scalar, same_kind, fraction_operation, compares, int_from, unsigned_from, to_half as to_half_of, to_float as to_float_of, in_range};
ghost use Rattle.ctl_types.specs.declared.scalar.Scalar.TheVariants.{Int, Unsigned, Half, Float};
ghost use Rattle.ctl_tree.specs.declared.expression.UnaryOperator.TheVariants.{Minus, Plus, Not, BitNot};
ghost use Rattle.fix_num.specs.Whole.{truth as truth_of, whole as whole_of, of_bool};
ghost use Rattle.eval_scalars.specs.Scalars.{made, of_two, of_one, as_kind};

use ctl_base::ScalarKind;
use ctl_tree::UnaryOperator;
use ctl_types::{Comparison, LinkOperator, Scalar};
use fix_num::{Fix, WholeOp, as_int, as_unsigned, whole, wholes_stay_in_range};

// Whether two numbers compare so.
fn compares(comparison: Comparison, a: i64, b: i64) -> bool
    ensures { result ≡ compares comparison a b }
{
    match comparison {
        Comparison::Equal => a == b,
        Comparison::NotEqual => a != b,
        Comparison::Less => a < b,
        Comparison::AtMost => a <= b,
        Comparison::Greater => a > b,
        Comparison::AtLeast => a >= b,
    }
}

// An operation on two ints.
fn whole_ints(op: WholeOp, a: i32, b: i32) -> i32
    ensures { result ≡ whole_of op true a b }
{
    wholes_stay_in_range();
    whole(op, true, a as i64, b as i64) as i32
}

// An operation on two unsigned.
fn whole_unsigned(op: WholeOp, a: u32, b: u32) -> u32
    ensures { pos result ≡ whole_of op false (pos a) (pos b) }
{
    wholes_stay_in_range();
    whole(op, false, a as i64, b as i64) as u32
}

fn ints(op: LinkOperator, a: i32, b: i32) -> Scalar
    ensures { Some result ≡ of_two op kind.Int (Int a) (Int b) }
{
    match op {
        LinkOperator::Arithmetic(op) => Scalar::Int(whole_ints(op, a, b)),
        LinkOperator::Compare(c) => Scalar::Bool(compares(c, a as i64, b as i64)),
    }
}

fn unsigneds(op: LinkOperator, a: u32, b: u32) -> Scalar
    ensures { Some result ≡ of_two op kind.Unsigned (Unsigned a) (Unsigned b) }
{
    match op {
        LinkOperator::Arithmetic(op) => Scalar::Unsigned(whole_unsigned(op, a, b)),
        LinkOperator::Compare(c) => Scalar::Bool(compares(c, a as i64, b as i64)),
    }
}

// One of the four operations that numbers with a fraction have.
fn fraction(op: WholeOp, a: Fix, b: Fix) -> Option<Fix>
    ensures { result ≡ fraction_operation FRACTION op a b }
{
    match op {
        WholeOp::Add => Some(a.add(b)),
        WholeOp::Sub => Some(a.sub(b)),
        WholeOp::Mul => Some(a.mul(b)),
        WholeOp::Div => Some(a.div(b)),
        _ => None,
    }
}

fn floats(op: LinkOperator, a: Fix, b: Fix) -> Option<Scalar>
    ensures { result ≡ of_two op kind.Float (Float a) (Float b) }
{
    match op {
        LinkOperator::Arithmetic(op) => match fraction(op, a, b) {
            Some(x) => Some(Scalar::Float(x)),
            None => None,
        },
        LinkOperator::Compare(c) => Some(Scalar::Bool(compares(c, a.raw(), b.raw()))),
    }
}

fn halves(op: LinkOperator, a: Fix, b: Fix) -> Option<Scalar>
    ensures { result ≡ of_two op kind.Half (Half a) (Half b) }
{
    match op {
        LinkOperator::Arithmetic(op) => match fraction(op, a, b) {
            Some(x) => Some(Scalar::Half(x.to_half())),
            None => None,
        },
        LinkOperator::Compare(c) => Some(Scalar::Bool(compares(c, a.raw(), b.raw()))),
    }
}

fn two_ints(op: LinkOperator, a: &Scalar, b: &Scalar) -> Option<Scalar>
    ensures { result ≡ of_two op kind.Int a.now b.now }
{
    match a {
        Scalar::Int(a) => match b {
            Scalar::Int(b) => Some(ints(op, *a, *b)),
            _ => None,
        },
        _ => None,
    }
}

fn two_unsigneds(op: LinkOperator, a: &Scalar, b: &Scalar) -> Option<Scalar>
    ensures { result ≡ of_two op kind.Unsigned a.now b.now }
{
    match a {
        Scalar::Unsigned(a) => match b {
            Scalar::Unsigned(b) => Some(unsigneds(op, *a, *b)),
            _ => None,
        },
        _ => None,
    }
}

fn two_halves(op: LinkOperator, a: &Scalar, b: &Scalar) -> Option<Scalar>
    ensures { result ≡ of_two op kind.Half a.now b.now }
{
    match a {
        Scalar::Half(a) => match b {
            Scalar::Half(b) => halves(op, *a, *b),
            _ => None,
        },
        _ => None,
    }
}

fn two_floats(op: LinkOperator, a: &Scalar, b: &Scalar) -> Option<Scalar>
    ensures { result ≡ of_two op kind.Float a.now b.now }
{
    match a {
        Scalar::Float(a) => match b {
            Scalar::Float(b) => floats(op, *a, *b),
            _ => None,
        },
        _ => None,
    }
}

/// What the operator of a link makes of two scalars, where they are of the kind that it works in.
pub fn of_two(op: LinkOperator, kind: ScalarKind, a: &Scalar, b: &Scalar) -> Option<Scalar>
    ensures { result ≡ of_two op kind a.now b.now }
{
    match kind {
        ScalarKind::Bool => None,
        ScalarKind::Int => two_ints(op, a, b),
        ScalarKind::Unsigned => two_unsigneds(op, a, b),
        ScalarKind::Half => two_halves(op, a, b),
        ScalarKind::Float => two_floats(op, a, b),
    }
}

fn minus(a: &Scalar) -> Option<Scalar>
    ensures { result ≡ of_one Minus (kind_of a.now) a.now }
{
    match a {
        Scalar::Bool(_) => None,
        Scalar::Int(n) => Some(Scalar::Int(whole_ints(WholeOp::Sub, 0, *n))),
        Scalar::Unsigned(n) => Some(Scalar::Unsigned(whole_unsigned(WholeOp::Sub, 0, *n))),
        Scalar::Half(x) => Some(Scalar::Half(x.neg().to_half())),
        Scalar::Float(x) => Some(Scalar::Float(x.neg())),
    }
}

fn flipped(a: &Scalar) -> Option<Scalar>
    ensures { result ≡ of_one BitNot (kind_of a.now) a.now }
{
    match a {
        Scalar::Int(n) => Some(Scalar::Int(whole_ints(WholeOp::Xor, *n, -1))),
        Scalar::Unsigned(n) => Some(Scalar::Unsigned(whole_unsigned(WholeOp::Xor, *n, u32::MAX))),
        _ => None,
    }
}

fn plus(a: &Scalar) -> Option<Scalar>
    ensures { result ≡ of_one Plus (kind_of a.now) a.now }
{
    match a {
        Scalar::Bool(_) => None,
        _ => Some(*a),
    }
}

fn turned(a: &Scalar) -> Option<Scalar>
    ensures { result ≡ of_one Not (kind_of a.now) a.now }
{
    match a {
        Scalar::Bool(b) => Some(Scalar::Bool(!*b)),
        _ => None,
    }
}

/// Whether a scalar is of a kind.
pub fn is_of(a: &Scalar, kind: ScalarKind) -> bool
    ensures { result ≡ same_kind (kind_of a.now) kind }
{
    match a {
        Scalar::Bool(_) => matches!(kind, ScalarKind::Bool),
        Scalar::Int(_) => matches!(kind, ScalarKind::Int),
        Scalar::Unsigned(_) => matches!(kind, ScalarKind::Unsigned),
        Scalar::Half(_) => matches!(kind, ScalarKind::Half),
        Scalar::Float(_) => matches!(kind, ScalarKind::Float),
    }
}

/// What an operator before its operand makes of a scalar, where it is of the kind that it works in.
pub fn of_one(op: UnaryOperator, kind: ScalarKind, a: &Scalar) -> Option<Scalar>
    ensures { result ≡ of_one op kind a.now }
{
    if !is_of(a, kind) {
        return None;
    }
    match op {
        UnaryOperator::Minus => minus(a),
        UnaryOperator::Plus => plus(a),
        UnaryOperator::Not => turned(a),
        UnaryOperator::BitNot => flipped(a),
    }
}

// Whether a number, whole or with a fraction, is not 0.
fn truth(a: &Scalar) -> bool
    ensures { result ≡ truth_of (word_of a.now) }
{
    match a {
        Scalar::Bool(b) => *b,
        Scalar::Int(n) => *n != 0,
        Scalar::Unsigned(n) => *n != 0,
        Scalar::Half(x) => x.truth(),
        Scalar::Float(x) => x.truth(),
    }
}

fn int_from(a: &Scalar) -> i32
    ensures { result ≡ int_from FRACTION (kind_of a.now) (word_of a.now) }
{
    match a {
        Scalar::Bool(b) => *b as i32,
        Scalar::Int(n) => *n,
        Scalar::Unsigned(n) => as_int(*n),
        Scalar::Half(x) => x.to_i32(),
        Scalar::Float(x) => x.to_i32(),
    }
}

fn unsigned_from(a: &Scalar) -> u32
    ensures { pos result ≡ unsigned_from FRACTION (kind_of a.now) (word_of a.now) }
{
    match a {
        Scalar::Bool(b) => *b as u32,
        Scalar::Int(n) => as_unsigned(*n),
        Scalar::Unsigned(n) => *n,
        Scalar::Half(x) => x.to_u32(),
        Scalar::Float(x) => x.to_u32(),
    }
}

fn half_from(a: &Scalar) -> Fix
    ensures { result ≡ to_half_of FRACTION (kind_of a.now) (word_of a.now) }
{
    match a {
        Scalar::Bool(b) => Fix::half_from_i32(*b as i32),
        Scalar::Int(n) => Fix::half_from_i32(*n),
        Scalar::Unsigned(n) => Fix::half_from_u32(*n),
        Scalar::Half(x) => *x,
        Scalar::Float(x) => x.to_half(),
    }
}

fn float_from(a: &Scalar) -> Fix
    ensures { result ≡ to_float_of FRACTION (kind_of a.now) (word_of a.now) }
{
    match a {
        Scalar::Bool(b) => Fix::from_bool(*b),
        Scalar::Int(n) => Fix::from_i32(*n),
        Scalar::Unsigned(n) => Fix::from_u32(*n),
        Scalar::Half(x) => *x,
        Scalar::Float(x) => *x,
    }
}

/// A scalar as one of another kind.
pub fn as_kind(kind: ScalarKind, a: &Scalar) -> Scalar
    ensures { result ≡ as_kind kind a.now }
{
    match kind {
        ScalarKind::Bool => Scalar::Bool(truth(a)),
        ScalarKind::Int => Scalar::Int(int_from(a)),
        ScalarKind::Unsigned => Scalar::Unsigned(unsigned_from(a)),
        ScalarKind::Half => Scalar::Half(half_from(a)),
        ScalarKind::Float => Scalar::Float(float_from(a)),
    }
}

/// Whether a scalar is in the range of its kind, as it is but for a half that is none.
pub fn in_range(a: &Scalar) -> bool
    ensures { result ≡ in_range FRACTION (kind_of a.now) (word_of a.now) }
{
    match a {
        Scalar::Bool(b) => bool_in_range(*b),
        Scalar::Int(n) => int_in_range(*n),
        Scalar::Unsigned(n) => unsigned_in_range(*n),
        Scalar::Half(x) => x.to_half().raw() == x.raw(),
        Scalar::Float(x) => float_in_range(*x),
    }
}

fn bool_in_range(b: bool) -> bool
    ensures { result ≡ in_range FRACTION kind.Bool (of_bool b) }
{
    if b { true } else { true }
}

fn int_in_range(n: i32) -> bool
    ensures { result ≡ in_range FRACTION kind.Int n }
{
    n >= i32::MIN
}

fn unsigned_in_range(n: u32) -> bool
    ensures { result ≡ in_range FRACTION kind.Unsigned (pos n) }
{
    n <= u32::MAX
}

fn float_in_range(x: Fix) -> bool
    ensures { result ≡ in_range FRACTION kind.Float x }
{
    let _raw = x.raw();
    true
}

/// The scalar of a kind that is zero.
pub fn zero_scalar(kind: ScalarKind) -> Scalar
    ensures { result ≡ scalar kind (pos 0) }
{
    match kind {
        ScalarKind::Bool => Scalar::Bool(false),
        ScalarKind::Int => Scalar::Int(0),
        ScalarKind::Unsigned => Scalar::Unsigned(0),
        ScalarKind::Half => Scalar::Half(Fix::from_raw(0)),
        ScalarKind::Float => Scalar::Float(Fix::from_raw(0)),
    }
}
