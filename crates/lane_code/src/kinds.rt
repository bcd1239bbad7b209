//! Words taken into their kind, operations on them, and conversions.

ghost use Rattle.std.specs.Prelude.{◌≡◌, ℤ, pos, true, false};
ghost use Rattle.ctl_base.specs.declared.kind.ScalarKind.TheVariants as kind_of;
ghost use Rattle.fix_num.specs.declared.TheConstants.{FRACTION};
ghost use Rattle.fix_num.specs.Fixed.{IsRaw};
ghost use Rattle.fix_num.specs.Whole.{whole as whole_of, as_int as as_int_of, as_unsigned as as_unsigned_of, of_bool as word_of_bool};
ghost use Rattle.lane_code.specs.Kinds.{as_kind, of_one, of_two, converted};
ghost use Rattle.lane_code.specs.declared.instr.Op1.TheVariants.{Neg};

use crate::instr::{Op1, Op2};
use ctl_base::ScalarKind;
use fix_num::{Fix, WholeOp, as_int, as_unsigned, of_bool, whole, wholes_stay_in_range};

fn bool_word(b: bool) -> Fix
    ensures { result ≡ word_of_bool b }
{
    Fix::from_raw(of_bool(b))
}

fn int_word(n: i32) -> Fix
    ensures { result ≡ n }
{
    Fix::from_raw(n as i64)
}

fn unsigned_word(n: u32) -> Fix
    ensures { result ≡ pos n }
{
    Fix::from_raw(n as i64)
}

// The unsigned that differs by a multiple of 2^32.
fn low_unsigned(z: Fix) -> u32
    ensures { pos result ≡ as_unsigned_of z }
{
    z.raw().rem_euclid(1 << 32) as u32
}

// The int that differs by a multiple of 2^32.
fn low_int(z: Fix) -> i32
    ensures { result ≡ as_int_of z }
{
    low_unsigned(z).cast_signed()
}

fn whole_int(op: WholeOp, a: i32, b: i32) -> Fix
    ensures { result ≡ whole_of op true a b }
{
    wholes_stay_in_range();
    Fix::from_raw(whole(op, true, a as i64, b as i64))
}

fn whole_unsigned(op: WholeOp, a: u32, b: u32) -> Fix
    ensures { result ≡ whole_of op false (pos a) (pos b) }
{
    wholes_stay_in_range();
    Fix::from_raw(whole(op, false, a as i64, b as i64))
}

fn ints(op: Op2, a: i32, b: i32) -> Fix
    ensures { result ≡ of_two FRACTION op kind_of.Int a b }
{
    match op {
        Op2::Add => whole_int(WholeOp::Add, a, b),
        Op2::Sub => whole_int(WholeOp::Sub, a, b),
        Op2::Mul => whole_int(WholeOp::Mul, a, b),
        Op2::Div => whole_int(WholeOp::Div, a, b),
        Op2::Rem => whole_int(WholeOp::Rem, a, b),
        Op2::And => whole_int(WholeOp::And, a, b),
        Op2::Or => whole_int(WholeOp::Or, a, b),
        Op2::Xor => whole_int(WholeOp::Xor, a, b),
        Op2::Shl => whole_int(WholeOp::Shl, a, b),
        Op2::Shr => whole_int(WholeOp::Shr, a, b),
        Op2::Eq => bool_word(a == b),
        Op2::Ne => bool_word(a != b),
        Op2::Lt => bool_word(a < b),
        Op2::Le => bool_word(a <= b),
        Op2::Gt => bool_word(a > b),
        Op2::Ge => bool_word(a >= b),
    }
}

fn unsigneds(op: Op2, a: u32, b: u32) -> Fix
    ensures { result ≡ of_two FRACTION op kind_of.Unsigned (pos a) (pos b) }
{
    match op {
        Op2::Add => whole_unsigned(WholeOp::Add, a, b),
        Op2::Sub => whole_unsigned(WholeOp::Sub, a, b),
        Op2::Mul => whole_unsigned(WholeOp::Mul, a, b),
        Op2::Div => whole_unsigned(WholeOp::Div, a, b),
        Op2::Rem => whole_unsigned(WholeOp::Rem, a, b),
        Op2::And => whole_unsigned(WholeOp::And, a, b),
        Op2::Or => whole_unsigned(WholeOp::Or, a, b),
        Op2::Xor => whole_unsigned(WholeOp::Xor, a, b),
        Op2::Shl => whole_unsigned(WholeOp::Shl, a, b),
        Op2::Shr => whole_unsigned(WholeOp::Shr, a, b),
        Op2::Eq => bool_word(a == b),
        Op2::Ne => bool_word(a != b),
        Op2::Lt => bool_word(a < b),
        Op2::Le => bool_word(a <= b),
        Op2::Gt => bool_word(a > b),
        Op2::Ge => bool_word(a >= b),
    }
}

fn floats(op: Op2, a: Fix, b: Fix) -> Fix
    ensures { result ≡ of_two FRACTION op kind_of.Float a b }
{
    match op {
        Op2::Add => a.add(b),
        Op2::Sub => a.sub(b),
        Op2::Mul => a.mul(b),
        Op2::Div => a.div(b),
        Op2::Eq => bool_word(a.raw() == b.raw()),
        Op2::Ne => bool_word(a.raw() != b.raw()),
        Op2::Lt => bool_word(a.raw() < b.raw()),
        Op2::Le => bool_word(a.raw() <= b.raw()),
        Op2::Gt => bool_word(a.raw() > b.raw()),
        Op2::Ge => bool_word(a.raw() >= b.raw()),
        _ => Fix::from_raw(0),
    }
}

fn halves(op: Op2, a: Fix, b: Fix) -> Fix
    ensures { result ≡ of_two FRACTION op kind_of.Half a b }
{
    match op {
        Op2::Eq | Op2::Ne | Op2::Lt | Op2::Le | Op2::Gt | Op2::Ge => floats(op, a, b),
        _ => floats(op, a, b).to_half(),
    }
}

/// What an operation makes of two words, which are taken into the kind first.
pub fn on_two(op: Op2, kind: ScalarKind, a: Fix, b: Fix) -> Fix
    ensures { result ≡ of_two FRACTION op kind (as_kind FRACTION kind a) (as_kind FRACTION kind b) }
{
    match kind {
        ScalarKind::Bool => Fix::from_raw(0),
        ScalarKind::Int => ints(op, low_int(a), low_int(b)),
        ScalarKind::Unsigned => unsigneds(op, low_unsigned(a), low_unsigned(b)),
        ScalarKind::Half => halves(op, a.to_half(), b.to_half()),
        ScalarKind::Float => floats(op, a, b),
    }
}

fn negative(kind: ScalarKind, a: Fix) -> Fix
    ensures { result ≡ of_one FRACTION Neg kind (as_kind FRACTION kind a) }
{
    match kind {
        ScalarKind::Bool => Fix::from_raw(0),
        ScalarKind::Int => whole_int(WholeOp::Sub, 0, low_int(a)),
        ScalarKind::Unsigned => whole_unsigned(WholeOp::Sub, 0, low_unsigned(a)),
        ScalarKind::Half => a.to_half().neg().to_half(),
        ScalarKind::Float => a.neg(),
    }
}

/// What an operation makes of a word, which is taken into the kind first.
pub fn on_one(op: Op1, kind: ScalarKind, a: Fix) -> Fix
    ensures { result ≡ of_one FRACTION op kind (as_kind FRACTION kind a) }
{
    match op {
        Op1::Neg => negative(kind, a),
        Op1::Not => match kind {
            ScalarKind::Bool => bool_word(!a.truth()),
            _ => Fix::from_raw(0),
        },
        Op1::Flip => match kind {
            ScalarKind::Int => whole_int(WholeOp::Xor, low_int(a), -1),
            ScalarKind::Unsigned => whole_unsigned(WholeOp::Xor, low_unsigned(a), u32::MAX),
            _ => Fix::from_raw(0),
        },
    }
}

/// A word taken into a kind.
pub fn taken(kind: ScalarKind, z: Fix) -> Fix
    ensures { result ≡ as_kind FRACTION kind z }
{
    match kind {
        ScalarKind::Bool => bool_word(z.truth()),
        ScalarKind::Int => int_word(low_int(z)),
        ScalarKind::Unsigned => unsigned_word(low_unsigned(z)),
        ScalarKind::Half => z.to_half(),
        ScalarKind::Float => z,
    }
}

fn from_bool(to: ScalarKind, b: bool) -> Fix
    ensures { result ≡ converted FRACTION kind_of.Bool to (word_of_bool b) }
{
    match to {
        ScalarKind::Bool | ScalarKind::Int | ScalarKind::Unsigned => bool_word(b),
        ScalarKind::Half => Fix::half_from_i32(b as i32),
        ScalarKind::Float => Fix::from_bool(b),
    }
}

fn from_int(to: ScalarKind, n: i32) -> Fix
    ensures { result ≡ converted FRACTION kind_of.Int to n }
{
    match to {
        ScalarKind::Bool => bool_word(n != 0),
        ScalarKind::Int => int_word(n),
        ScalarKind::Unsigned => unsigned_word(as_unsigned(n)),
        ScalarKind::Half => Fix::half_from_i32(n),
        ScalarKind::Float => Fix::from_i32(n),
    }
}

fn from_unsigned(to: ScalarKind, n: u32) -> Fix
    ensures { result ≡ converted FRACTION kind_of.Unsigned to (pos n) }
{
    match to {
        ScalarKind::Bool => bool_word(n != 0),
        ScalarKind::Int => int_word(as_int(n)),
        ScalarKind::Unsigned => unsigned_word(n),
        ScalarKind::Half => Fix::half_from_u32(n),
        ScalarKind::Float => Fix::from_u32(n),
    }
}

fn from_half(to: ScalarKind, z: Fix) -> Fix
    ensures { result ≡ converted FRACTION kind_of.Half to z }
{
    match to {
        ScalarKind::Bool => bool_word(z.truth()),
        ScalarKind::Int => int_word(z.to_i32()),
        ScalarKind::Unsigned => unsigned_word(z.to_u32()),
        ScalarKind::Half | ScalarKind::Float => z,
    }
}

fn from_float(to: ScalarKind, z: Fix) -> Fix
    ensures { result ≡ converted FRACTION kind_of.Float to z }
{
    match to {
        ScalarKind::Bool => bool_word(z.truth()),
        ScalarKind::Int => int_word(z.to_i32()),
        ScalarKind::Unsigned => unsigned_word(z.to_u32()),
        ScalarKind::Half => z.to_half(),
        ScalarKind::Float => z,
    }
}

/// A word, taken into the first kind, as one of the second.
pub fn converted(from: ScalarKind, to: ScalarKind, z: Fix) -> Fix
    ensures { result ≡ converted FRACTION from to (as_kind FRACTION from z) }
{
    match from {
        ScalarKind::Bool => from_bool(to, z.truth()),
        ScalarKind::Int => from_int(to, low_int(z)),
        ScalarKind::Unsigned => from_unsigned(to, low_unsigned(z)),
        ScalarKind::Half => from_half(to, z.to_half()),
        ScalarKind::Float => from_float(to, z),
    }
}
