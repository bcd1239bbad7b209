//! Whole numbers of 32 bits, and conversions between the kinds of number.

ghost use Rattle.std.specs.Prelude.{◌≡◌, ℤ, pos, true, false};
ghost use Rattle.fix_num.specs.Whole.{IsWhole, whole, as_int, as_unsigned, from_whole, half_from_whole, to_int, to_unsigned, truth, of_bool};

use crate::fix::{Fix, saturated};
use crate::{FRACTION, ONE, ONE_64};

/// An operation on two whole numbers.
#[derive(Clone, Copy, Debug, PartialEq, Eq)]
pub enum WholeOp {
    Add,
    Sub,
    Mul,
    /// Toward zero, and 0 by zero.
    Div,
    /// Of the sign of the left side, and 0 by zero.
    Rem,
    And,
    Or,
    Xor,
    /// The count is taken modulo 32.
    Shl,
    /// The count is taken modulo 32. A right shift of an int keeps the sign.
    Shr,
}

/// The operation on two ints where `signed` is true, else on two unsigned. What does not fit is taken modulo 2^32.
pub fn whole(op: WholeOp, signed: bool, a: i64, b: i64) -> i64
    requires left { IsWhole signed a }
    requires right { IsWhole signed b }
    ensures { result ≡ whole op signed a b }
{
    if signed {
        whole_int(op, a as i32, b as i32) as i64
    } else {
        whole_unsigned(op, a as u32, b as u32) as i64
    }
}

fn whole_int(op: WholeOp, a: i32, b: i32) -> i32
    ensures { result ≡ whole op true a b }
{
    match op {
        WholeOp::Add => a.wrapping_add(b),
        WholeOp::Sub => a.wrapping_sub(b),
        WholeOp::Mul => a.wrapping_mul(b),
        WholeOp::Div => { if b == 0 { 0 } else { a.wrapping_div(b) } }
        WholeOp::Rem => { if b == 0 { 0 } else { a.wrapping_rem(b) } }
        WholeOp::And => a & b,
        WholeOp::Or => a | b,
        WholeOp::Xor => a ^ b,
        WholeOp::Shl => a.wrapping_shl(b.cast_unsigned()),
        WholeOp::Shr => a.wrapping_shr(b.cast_unsigned()),
    }
}

fn whole_unsigned(op: WholeOp, a: u32, b: u32) -> u32
    ensures { pos result ≡ whole op false (pos a) (pos b) }
{
    match op {
        WholeOp::Add => a.wrapping_add(b),
        WholeOp::Sub => a.wrapping_sub(b),
        WholeOp::Mul => a.wrapping_mul(b),
        WholeOp::Div => a.checked_div(b).unwrap_or(0),
        WholeOp::Rem => a.checked_rem(b).unwrap_or(0),
        WholeOp::And => a & b,
        WholeOp::Or => a | b,
        WholeOp::Xor => a ^ b,
        WholeOp::Shl => a.wrapping_shl(b),
        WholeOp::Shr => a.wrapping_shr(b),
    }
}

/// The int that differs from an unsigned by a multiple of 2^32.
pub fn as_int(n: u32) -> i32
    ensures { result ≡ as_int (pos n) }
{
    n.cast_signed()
}

/// The unsigned that differs from an int by a multiple of 2^32.
pub fn as_unsigned(n: i32) -> u32
    ensures { pos result ≡ as_unsigned n }
{
    n.cast_unsigned()
}

/// Whether a whole number, or the raw of a number, is not 0.
pub fn truth(number: i64) -> bool
    ensures { result ≡ truth number }
{
    number != 0
}

/// 1 for true and 0 for false.
pub fn of_bool(b: bool) -> i64
    ensures { result ≡ of_bool b }
{
    if b { 1 } else { 0 }
}

impl Fix {
    /// The whole number toward zero.
    pub fn to_i32(self) -> i32
        ensures { result ≡ to_int FRACTION self }
    {
        (self.raw() / ONE_64 as i64) as i32
    }

    /// The whole number toward zero, and 0 for a negative number.
    pub fn to_u32(self) -> u32
        ensures { pos result ≡ to_unsigned FRACTION self }
    {
        if self.raw() < 0 {
            0
        } else {
            (self.raw() / ONE_64 as i64) as u32
        }
    }

    /// The number of an int, saturated.
    pub fn from_i32(n: i32) -> Fix
        ensures { result ≡ from_whole FRACTION n }
    {
        saturated(n as i128 * ONE)
    }

    /// The number of an unsigned, saturated.
    pub fn from_u32(n: u32) -> Fix
        ensures { result ≡ from_whole FRACTION (pos n) }
    {
        saturated(n as i128 * ONE)
    }

    /// The half of an int.
    pub fn half_from_i32(n: i32) -> Fix
        ensures { result ≡ half_from_whole FRACTION n }
    {
        Fix::from_i32(n).to_half()
    }

    /// The half of an unsigned.
    pub fn half_from_u32(n: u32) -> Fix
        ensures { result ≡ half_from_whole FRACTION (pos n) }
    {
        Fix::from_u32(n).to_half()
    }

    /// Whether the number is not 0.
    pub fn truth(self) -> bool
        ensures { result ≡ truth self }
    {
        truth(self.raw())
    }

    /// 1.0 for true and 0.0 for false.
    pub fn from_bool(b: bool) -> Fix
        ensures { result ≡ from_whole FRACTION (of_bool b) }
    {
        Fix::from_i32(if b { 1 } else { 0 })
    }
}
