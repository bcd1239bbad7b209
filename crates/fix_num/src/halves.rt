//! The nearest half.

ghost use Rattle.std.specs.Prelude.{◌≡◌, ℕ, ◌*◌, ◌^◌, ◌<◌, ◌≤◌, ◌⊎◌, ℤ};
ghost use Rattle.fix_num.specs.Half.{IsNearest, IsNearestHalf, half, HalfIsNearest, HalfKeeps, HalfGrows};

use crate::FRACTION;
use crate::fix::Fix;

// The raw of 2^-24, the least half above 0.
const UNIT: u64 = 1 << (FRACTION - 24);

// The raw of 65504, the greatest half.
const MOST: u64 = 2047 << (FRACTION + 5);

impl Fix {
    /// The nearest half: 0, or plus or minus `m * 2^(e - 10)` with m from 1024 to 2047 and e from
    /// -14 to 15, or plus or minus `m * 2^-24` with m from 1 to 1023. Of two that are equally near
    /// it is the one with even m. Numbers beyond 65504 become 65504 with their sign.
    pub fn to_half(self) -> Fix
        ensures { result ≡ half FRACTION self }
    {
        Fix::from_raw(nearest_half(self.raw()))
    }
}

/// The law that pins the nearest half.
pub fn half_is_nearest()
    ensures { HalfIsNearest }
{}

/// The law that a half is its own half.
pub fn half_keeps()
    ensures { HalfKeeps }
{}

/// The law that a greater number has no lesser half.
pub fn half_grows()
    ensures { HalfGrows }
{}

// The raw of the half that is nearest to a raw.
fn nearest_half(raw: i64) -> i64
    ensures { IsNearestHalf UNIT raw result }
{
    let size = nearest_size(raw.unsigned_abs()) as i64;
    if raw < 0 { -size } else { size }
}

// The size of a half that is nearest to n.
fn nearest_size(n: u64) -> u64
    ensures { IsNearest UNIT n result }
{
    if MOST <= n {
        return MOST;
    }
    let shift = shift_of(n);
    let step = step_of(shift);
    let digits = n / step;
    let rest = n % step;
    if 2 * rest < step {
        digits * step
    } else if step < 2 * rest {
        (digits + 1) * step
    } else if digits % 2 == 0 {
        digits * step
    } else {
        (digits + 1) * step
    }
}

// How far eleven digits of n are shifted.
fn shift_of(n: u64) -> u32
    requires { n < MOST }
    ensures range { result ≤ 29 }
    ensures few { n < 2048 * (2 ^ result * UNIT) }
    ensures full { (result ≡ 0) ⊎ (1024 * (2 ^ result * UNIT) ≤ n) }
{
    let units = n / UNIT;
    if units < 2048 {
        0
    } else {
        53 - units.leading_zeros()
    }
}

fn step_of(shift: u32) -> u64
    requires { shift ≤ 29 }
    ensures value { result ≡ 2 ^ shift * UNIT }
    ensures bound { result ≤ 2 ^ 29 * UNIT }
    ensures positive { 0 < result }
{
    (1u64 << shift) * UNIT
}
