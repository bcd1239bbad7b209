//! Logarithms to the bases 2, e and 10.

ghost use Rattle.std.specs.Prelude.{◌≡◌, ℤ, ◌<◌, ◌≤◌, ◌^◌};
ghost use Rattle.fix_elem.specs.Elementary.{exponent, log2_above, log2, log, log10};

use crate::constants::TABLE;
use crate::powers::{COUNT, stepped};
use fix_num::{FRACTION, Fix, LN_2, LOG10_2, root_is_floor};

// The greatest f with E(f) at most m, bit by bit.
fn exponent(m: u64) -> u64
    requires { 2 ^ 62 ≤ m }
    ensures value { result ≡ exponent FRACTION m }
    ensures small { result < 2 ^ FRACTION }
{
    root_is_floor();
    let mut e: u64 = 1 << 62;
    let mut f: u64 = 0;
    'bits: for k in 0..COUNT {
        let next = stepped(e, TABLE[k]);
        if next <= m as u128 {
            e = next as u64;
            f += 1 << (COUNT - 1 - k);
        }
    }
    f
}

// The logarithm to the base 2 of a raw above 0.
fn log2_above(n: u64) -> i64
    requires positive { 0 < n }
    requires small { n < 2 ^ 63 }
    ensures { result ≡ log2_above FRACTION n }
{
    let zeros = n.leading_zeros();
    let whole = 63 - zeros as i64 - FRACTION as i64;
    whole * (1 << FRACTION) + exponent(n << (zeros - 1)) as i64
}

/// The logarithm to the base 2. It is the least number where x is 0 or below.
#[tactic(auto, unfolding(crate::specs::Elementary::log2))]
pub fn log2(x: Fix) -> Fix
    ensures { result ≡ log2 FRACTION x }
{
    if 0 < x.raw() {
        Fix::from_raw(log2_above(x.raw() as u64))
    } else {
        Fix::from_raw(-i64::MAX)
    }
}

/// The logarithm to the base e.
#[tactic(auto, unfolding(crate::specs::Elementary::log))]
pub fn log(x: Fix) -> Fix
    ensures { result ≡ log FRACTION x }
{
    log2(x).times(LN_2)
}

/// The logarithm to the base 10.
#[tactic(auto, unfolding(crate::specs::Elementary::log10))]
pub fn log10(x: Fix) -> Fix
    ensures { result ≡ log10 FRACTION x }
{
    log2(x).times(LOG10_2)
}
