//! Where a number lies among entries that are spread evenly, and what lies between two of them.

ghost use Rattle.std.specs.Prelude.{◌≡◌, ℤ, pos, ◌-◌, ◌+◌, ◌*◌, ◌^◌, ◌<◌, ◌≤◌, ◌≤ℤ◌, ◌<ℤ◌, ◌-ℤ◌, int_lt, int_le, unsigned_abs};
ghost use Rattle.fix_num.specs.Fixed.{clamped};
ghost use Rattle.table_lookup.specs.Between.{mix, steps_before, axis};
ghost use Rattle.table_lookup.specs.Means.{IsSegment, segment_of};

use crate::{ONE, ONE_64};
use ctl_base::limits::SCALARS;
use fix_num::{FRACTION, Fix, rnd, rnd_shift, rounding_keeps_bounds, saturated};

/// Where a number lies between two entries: their indices, and how far from the first to the second.
#[derive(Drop)]
pub struct Segment {
    pub low: usize,
    pub high: usize,
    pub part: Fix,
}

/// Whether a is less than b.
pub fn less(a: Fix, b: Fix) -> bool
    ensures { result ≡ int_lt a b }
{
    a.raw() < b.raw()
}

/// Whether a is at most b.
pub fn at_most(a: Fix, b: Fix) -> bool
    ensures { result ≡ int_le a b }
{
    a.raw() <= b.raw()
}

/// `a + f * (b - a)` for f from 0 to 1.
pub fn mix(a: Fix, b: Fix, f: Fix) -> Fix
    requires low { pos 0 ≤ℤ f }
    requires high { f ≤ℤ pos (2 ^ FRACTION) }
    ensures { result ≡ mix FRACTION a b f }
{
    rounding_keeps_bounds();
    let part = wide(f);
    let step = rnd_shift(span(a, b) * part, FRACTION);
    saturated(wide(a) + step)
}

/// The segment of p among n entries that are spread evenly from lo to hi.
#[tactic(auto, unfolding(crate::specs::Between::axis))]
pub fn axis(n: usize, lo: Fix, hi: Fix, p: Fix) -> Segment
    requires some { 0 < n }
    requires few { n ≤ SCALARS }
    ensures value { segment_of result ≡ axis FRACTION n lo hi p }
    ensures segment { IsSegment FRACTION n (segment_of result) }
{
    if n == 1 || !less(lo, hi) {
        return Segment {
            low: 0,
            high: 0,
            part: Fix::from_raw(0),
        };
    }
    let behind = steps_before(n, lo, hi, p);
    let low = (behind / ONE_64).min(n as u64 - 2);
    Segment {
        low: low as usize,
        high: low as usize + 1,
        part: Fix::from_raw((behind - low * ONE_64) as i64),
    }
}

// How many steps from entry to entry, as a raw, lie before p.
fn steps_before(n: usize, lo: Fix, hi: Fix, p: Fix) -> u64
    requires some { 2 ≤ n }
    requires few { n ≤ SCALARS }
    requires rising { lo <ℤ hi }
    ensures value { pos result ≡ steps_before FRACTION n lo hi p }
    ensures most { result ≤ (n - 1) * 2 ^ FRACTION }
{
    rounding_keeps_bounds();
    let steps = within(lo, hi, p) * (n - 1) as i128;
    rnd(steps * ONE, span(lo, hi)) as u64
}

// How far p lies from lo, where it is first clamped to lo to hi.
fn within(lo: Fix, hi: Fix, p: Fix) -> i128
    requires rising { lo <ℤ hi }
    ensures value { result ≡ clamped p lo hi -ℤ lo }
    ensures low { pos 0 ≤ℤ result }
    ensures high { result ≤ℤ (hi -ℤ lo) }
    ensures size { unsigned_abs result ≤ 2 ^ 64 }
{
    wide(p).clamp(wide(lo), wide(hi)) - wide(lo)
}

/// The raw in 128 bits.
pub fn wide(a: Fix) -> i128
    ensures value { result ≡ a }
    ensures size { unsigned_abs result ≤ 2 ^ 63 }
{
    a.raw() as i128
}

/// What lies from a to b.
pub fn span(a: Fix, b: Fix) -> i128
    ensures value { result ≡ b -ℤ a }
    ensures size { unsigned_abs result ≤ 2 ^ 64 }
{
    wide(b) - wide(a)
}
