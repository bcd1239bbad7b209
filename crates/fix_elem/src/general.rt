//! Powers of any base, roots, lengths and remainders.

ghost use Rattle.std.specs.Prelude.{◌≡◌, ℤ, pos, ◌<ℤ◌};
ghost use Rattle.fix_num.specs.Fixed.{fix_sqrt};
ghost use Rattle.fix_elem.specs.Elementary.{pow_above, pow_zero, pow_below, pow, hypot, fmod};

use crate::logarithms::log2;
use crate::powers::exp2;
use fix_num::{FRACTION, Fix, isqrt, saturated};

// x to the power of y, for x above 0.
fn pow_above(x: Fix, y: Fix) -> Fix
    ensures { result ≡ pow_above FRACTION x y }
{
    exp2(y.mul(log2(x)))
}

// 0 to the power of y.
fn pow_zero(y: Fix) -> Fix
    ensures { result ≡ pow_zero FRACTION y }
{
    if 0 < y.raw() {
        Fix::from_raw(0)
    } else if y.raw() < 0 {
        Fix::from_raw(i64::MAX)
    } else {
        Fix::from_raw(1 << FRACTION)
    }
}

// x to the power of y, for x below 0.
fn pow_below(x: Fix, y: Fix) -> Fix
    ensures { result ≡ pow_below FRACTION x y }
{
    if y.raw().rem_euclid(1 << (FRACTION + 1)) == 0 {
        pow_above(x.neg(), y)
    } else if y.raw().rem_euclid(1 << FRACTION) == 0 {
        pow_above(x.neg(), y).neg()
    } else {
        Fix::from_raw(0)
    }
}

/// x to the power of y. A power of 0 is 0 for y above 0, 1 for y = 0 and the greatest number for y below 0.
/// A power of a number below 0 has the sign of that number where y is an odd whole number, none where it is an
/// even one, and is 0 where y is not whole.
#[tactic(auto, unfolding(crate::specs::Elementary::pow))]
pub fn pow(x: Fix, y: Fix) -> Fix
    ensures { result ≡ pow FRACTION x y }
{
    if 0 < x.raw() {
        pow_above(x, y)
    } else if x.raw() < 0 {
        pow_below(x, y)
    } else {
        pow_zero(y)
    }
}

/// The square root, rounded down, and 0 for a number below 0.
pub fn sqrt(x: Fix) -> Fix
    ensures { result ≡ fix_sqrt FRACTION x }
{
    x.sqrt()
}

/// The length of (x, y), rounded down.
#[tactic(auto, unfolding(crate::specs::Elementary::hypot))]
pub fn hypot(x: Fix, y: Fix) -> Fix
    ensures { result ≡ hypot x y }
{
    let a = x.raw().unsigned_abs() as u128;
    let b = y.raw().unsigned_abs() as u128;
    saturated(isqrt(a * a + b * b) as i128)
}

/// The remainder of x / y toward zero. It has the sign of x, and is 0 for y = 0.
#[tactic(auto, unfolding(crate::specs::Elementary::fmod))]
pub fn fmod(x: Fix, y: Fix) -> Fix
    ensures { result ≡ fmod x y }
{
    if y.raw() == 0 {
        Fix::from_raw(0)
    } else {
        Fix::from_raw(x.raw() % y.raw())
    }
}
