//! The number type and its arithmetic.

ghost use Rattle.std.specs.Prelude.{◌≡◌, ℤ, pos, ◌*◌, ◌+◌, ◌^◌, ◌<◌};
ghost use Rattle.fix_num.specs.Fixed.{IsRaw, sat, one, fix_neg, fix_abs, fix_add, fix_sub, fix_mul, fix_div, fix_floor, fix_times, SaturationClamps};

use crate::rounding::{rnd, rnd_shift};
use crate::{FRACTION, MAX_RAW, ONE};
use std::marker::Model;

const QUINTILLION: i128 = 1_000_000_000_000_000_000;

/// A number with a fraction: `raw / 2^FRACTION`, where `raw` is a whole number from
/// `-(2^63 - 1)` to `2^63 - 1`. Results beyond this range become the end that they are beyond.
#[derive(Clone, Copy, Debug, PartialEq, Eq)]
pub struct Fix {
    raw: i64,
}

impl Model for Fix {
    ghost use Rattle.std.specs.Prelude.{ℤ};
    ghost use Rattle.fix_num.specs.Fixed.{IsRaw};

    ghost Value = { ℤ };

    ghost view = { λ a. a.raw };

    ghost invariant = { λ a. IsRaw a.raw };

    ghost inverse = { λ z. record { raw = z } };
}

/// The number whose raw is n, or the end of the range that n is beyond.
#[tactic(auto, unfolding(crate::specs::Fixed::sat))]
pub fn saturated(n: i128) -> Fix
    ensures { result ≡ sat n }
{
    Fix {
        raw: n.clamp(-MAX_RAW, MAX_RAW) as i64,
    }
}

/// The law that pins saturation.
pub fn saturation_clamps()
    ensures { SaturationClamps }
{}

impl Fix {
    /// 1.0.
    pub const ONE: Fix = Fix { raw: 1 << FRACTION };

    /// The number `raw / 2^FRACTION`.
    pub fn from_raw(raw: i64) -> Fix
        requires { IsRaw raw }
        ensures { result ≡ raw }
    {
        Fix { raw }
    }

    /// The number times `2^FRACTION`.
    pub fn raw(self) -> i64
        ensures { result ≡ self }
    {
        self.raw
    }

    /// The sum.
    pub fn add(self, other: Fix) -> Fix
        ensures { result ≡ fix_add self other }
    {
        saturated(self.raw as i128 + other.raw as i128)
    }

    /// The difference.
    pub fn sub(self, other: Fix) -> Fix
        ensures { result ≡ fix_sub self other }
    {
        saturated(self.raw as i128 - other.raw as i128)
    }

    /// The product, rounded.
    pub fn mul(self, other: Fix) -> Fix
        ensures { result ≡ fix_mul FRACTION self other }
    {
        saturated(rnd_shift(self.raw as i128 * other.raw as i128, FRACTION))
    }

    /// The greatest whole number that is not greater, or the least number of all where there is none.
    pub fn floor(self) -> Fix
        ensures { result ≡ fix_floor FRACTION self }
    {
        saturated((self.raw as i128 >> FRACTION) * ONE)
    }

    /// The number with its sign changed.
    pub fn neg(self) -> Fix
        ensures { result ≡ fix_neg self }
    {
        Fix { raw: -self.raw }
    }

    /// The size of the number.
    pub fn abs(self) -> Fix
        ensures { result ≡ fix_abs self }
    {
        Fix {
            raw: self.raw.abs(),
        }
    }

    /// The quotient, rounded. Where the divisor is negative, both signs are changed before.
    /// A quotient by 0 is the end of the range on the dividend's side, and 0 where that is 0.
    pub fn div(self, other: Fix) -> Fix
        ensures { result ≡ fix_div FRACTION self other }
    {
        let a = self.raw as i128;
        let b = other.raw as i128;
        if 0 < b {
            saturated(rnd(a * ONE, b))
        } else if b < 0 {
            saturated(rnd(-a * ONE, -b))
        } else if 0 < a {
            Fix { raw: i64::MAX }
        } else if a < 0 {
            Fix { raw: -i64::MAX }
        } else {
            Fix { raw: 0 }
        }
    }

    /// The product with the decimal fraction of 18 digits `quintillionths / 10^18`, rounded.
    pub fn times(self, quintillionths: u64) -> Fix
        requires { quintillionths < 2 ^ 62 }
        ensures { result ≡ fix_times self quintillionths }
    {
        saturated(rnd(self.raw as i128 * quintillionths as i128, QUINTILLION))
    }
}
