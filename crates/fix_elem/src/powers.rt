//! Powers of 2, of e and of 10.

ghost use Rattle.std.specs.Prelude.{◌≡◌, ◌*◌, ◌/◌, ◌<◌, ◌^◌};
ghost use Rattle.fix_elem.specs.Elementary.{power, shifted, exp2, exp, pow10};

use crate::constants::TABLE;
use fix_num::{
    FRACTION, Fix, LOG2_E, LOG2_TEN, floor_is_greatest, rnd_shift, root_is_floor,
    rounding_keeps_bounds, saturated,
};

/// The number of constants that serve.
pub(crate) const COUNT: usize = FRACTION as usize;

// One constant multiplied into a power.
pub(crate) fn stepped(e: u64, constant: u64) -> u128
    ensures { result ≡ e * constant / 2 ^ 62 }
{
    (e as u128 * constant as u128) >> 62
}

// E(f): the product of the constants whose bits are set in f.
fn power(f: u64) -> u64
    ensures value { result ≡ power FRACTION f }
    ensures small { result < 2 ^ 63 }
{
    root_is_floor();
    let mut e: u64 = 1 << 62;
    'bits: for k in 0..COUNT {
        if (f >> (COUNT - 1 - k)) & 1 == 1 {
            e = stepped(e, TABLE[k]) as u64;
        }
    }
    e
}

// `e / 2^shift`, rounded, and the greatest number for a negative shift. A shift above 64 leaves nothing of e.
fn shifted(e: u64, shift: i64) -> Fix
    requires { e < 2 ^ 63 }
    ensures { result ≡ shifted e shift }
{
    rounding_keeps_bounds();
    let beyond = shift < 0;
    if beyond {
        Fix::from_raw(i64::MAX)
    } else if shift <= 64 {
        saturated(rnd_shift(e as i128, shift as u32))
    } else {
        Fix::from_raw(0)
    }
}

/// 2 to the power of x. It is the greatest number where the power is beyond the range.
pub fn exp2(x: Fix) -> Fix
    ensures { result ≡ exp2 FRACTION x }
{
    floor_is_greatest();
    let whole = x.raw().div_euclid(1 << FRACTION);
    let rest = x.raw().rem_euclid(1 << FRACTION);
    shifted(power(rest as u64), 62 - FRACTION as i64 - whole)
}

/// e to the power of x.
#[tactic(auto, unfolding(crate::specs::Elementary::exp))]
pub fn exp(x: Fix) -> Fix
    ensures { result ≡ exp FRACTION x }
{
    exp2(x.times(LOG2_E))
}

/// 10 to the power of x.
#[tactic(auto, unfolding(crate::specs::Elementary::pow10))]
pub fn pow10(x: Fix) -> Fix
    ensures { result ≡ pow10 FRACTION x }
{
    exp2(x.times(LOG2_TEN))
}
