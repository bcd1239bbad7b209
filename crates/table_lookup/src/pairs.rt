//! Tables of pairs, each of an x where the entry lies and of a y.

ghost use Rattle.std.specs.Prelude.{◌≡◌, ℕ, ℤ, pos, ◌+◌, ◌-◌, ◌*◌, ◌/◌, ◌%◌, ◌^◌, ◌<◌, ◌≤◌, ◌≤ℤ◌, ◌<ℤ◌, length};
ghost use Rattle.table_lookup.specs.Tables.{pairs, pair, interval, part_between, secant, pair_slope, mix_from, curve_from, interp1, interp_cubic1};

use crate::ONE;
use crate::axis::{at_most, less, mix, span};
use crate::curve::{half_sum, hermite};
use ctl_base::limits::SCALARS;
use fix_num::{FRACTION, Fix, rnd, rounding_keeps_bounds};

/// The number at p of the line through the pairs, each an x and then its y, of a flat table.
/// Beyond the first and the last x it is the y at that end.
#[tactic(auto, unfolding(crate::specs::Tables::interp1))]
pub fn interp1(t: &[Fix], p: Fix) -> Fix
    requires some { 0 < length t.now }
    requires few { length t.now ≤ SCALARS }
    requires even { length t.now % 2 ≡ 0 }
    ensures { result ≡ interp1 FRACTION (pairs t.now) p }
{
    let last = count(t) - 1;
    if at_most(p, x(t, 0)) {
        y(t, 0)
    } else if at_most(x(t, last), p) {
        y(t, last)
    } else {
        mix_from(t, p, interval(t, p))
    }
}

/// The number at p of the smooth curve through the pairs, each an x and then its y, of a flat
/// table. Beyond the first and the last x it is the y at that end.
#[tactic(auto, unfolding(crate::specs::Tables::interp_cubic1))]
pub fn interp_cubic1(t: &[Fix], p: Fix) -> Fix
    requires some { 0 < length t.now }
    requires few { length t.now ≤ SCALARS }
    requires even { length t.now % 2 ≡ 0 }
    ensures { result ≡ interp_cubic1 FRACTION (pairs t.now) p }
{
    let last = count(t) - 1;
    if at_most(p, x(t, 0)) {
        y(t, 0)
    } else if at_most(x(t, last), p) {
        y(t, last)
    } else {
        curve_from(t, p, interval(t, p))
    }
}

// How many pairs there are.
fn count(t: &[Fix]) -> usize
    requires { length t.now ≤ SCALARS }
    ensures value { result ≡ length (pairs t.now) }
    ensures half { result ≡ length t.now / 2 }
{
    t.len() / 2
}

// The line from pair i to the next, at p.
#[tactic(auto, unfolding(crate::specs::Tables::mix_from))]
fn mix_from(t: &[Fix], p: Fix, i: usize) -> Fix
    requires inside { 2 * i + 3 < length t.now }
    requires few { length t.now ≤ SCALARS }
    requires low { (pair (pairs t.now) i).x ≤ℤ p }
    requires high { p <ℤ (pair (pairs t.now) (i + 1)).x }
    ensures { result ≡ mix_from FRACTION (pairs t.now) p i }
{
    mix(y(t, i), y(t, i + 1), part_between(x(t, i), x(t, i + 1), p))
}

// The cubic from pair i to the next, at p.
#[tactic(auto, unfolding(crate::specs::Tables::curve_from))]
fn curve_from(t: &[Fix], p: Fix, i: usize) -> Fix
    requires inside { 2 * i + 3 < length t.now }
    requires few { length t.now ≤ SCALARS }
    requires even { length t.now % 2 ≡ 0 }
    requires low { (pair (pairs t.now) i).x ≤ℤ p }
    requires high { p <ℤ (pair (pairs t.now) (i + 1)).x }
    ensures { result ≡ curve_from FRACTION (pairs t.now) p i }
{
    let width = x(t, i + 1).sub(x(t, i));
    let leaving = slope(t, i).mul(width);
    let arriving = slope(t, i + 1).mul(width);
    hermite(
        y(t, i),
        y(t, i + 1),
        leaving,
        arriving,
        part_between(x(t, i), x(t, i + 1), p),
    )
}

// The x of pair i.
fn x(t: &[Fix], i: usize) -> Fix
    requires inside { 2 * i + 1 < length t.now }
    requires few { length t.now ≤ SCALARS }
    ensures { result ≡ (pair (pairs t.now) i).x }
{
    t[2 * i]
}

// The y of pair i.
fn y(t: &[Fix], i: usize) -> Fix
    requires inside { 2 * i + 1 < length t.now }
    requires few { length t.now ≤ SCALARS }
    ensures { result ≡ (pair (pairs t.now) i).y }
{
    t[2 * i + 1]
}

// The least i such that p lies below the x of pair i + 1.
fn interval(t: &[Fix], p: Fix) -> usize
    requires some { 4 ≤ length t.now }
    requires few { length t.now ≤ SCALARS }
    requires even { length t.now % 2 ≡ 0 }
    requires first { (pair (pairs t.now) 0).x <ℤ p }
    requires last { p <ℤ (pair (pairs t.now) (length t.now / 2 - 1)).x }
    ensures value { result ≡ interval (pairs t.now) p }
    ensures inside { 2 * result + 3 < length t.now }
    ensures low { (pair (pairs t.now) result).x ≤ℤ p }
    ensures high { p <ℤ (pair (pairs t.now) (result + 1)).x }
{
    let last = t.len() / 2 - 2;
    'pairs: for i in 0..last {
        if less(p, x(t, i + 1)) {
            return i;
        }
    }
    last
}

// How far p lies on the way from a to b.
fn part_between(a: Fix, b: Fix, p: Fix) -> Fix
    requires low { a ≤ℤ p }
    requires high { p <ℤ b }
    ensures value { result ≡ part_between FRACTION a b p }
    ensures from { pos 0 ≤ℤ result }
    ensures to { result ≤ℤ pos (2 ^ FRACTION) }
{
    rounding_keeps_bounds();
    let width = span(a, b);
    let part = rnd(span(a, p) * ONE, width);
    Fix::from_raw(part as i64)
}

// The slope of the line from pair k to the next.
#[tactic(auto, unfolding(crate::specs::Tables::secant))]
fn secant(t: &[Fix], k: usize) -> Fix
    requires inside { 2 * k + 3 < length t.now }
    requires few { length t.now ≤ SCALARS }
    ensures { result ≡ secant FRACTION (pairs t.now) k }
{
    y(t, k + 1).sub(y(t, k)).div(x(t, k + 1).sub(x(t, k)))
}

// The slope of the curve at pair k.
#[tactic(auto, unfolding(crate::specs::Tables::pair_slope))]
fn slope(t: &[Fix], k: usize) -> Fix
    requires some { 4 ≤ length t.now }
    requires inside { 2 * k + 1 < length t.now }
    requires few { length t.now ≤ SCALARS }
    requires even { length t.now % 2 ≡ 0 }
    ensures { result ≡ pair_slope FRACTION (pairs t.now) k }
{
    if k == 0 {
        secant(t, 0)
    } else if k == count(t) - 1 {
        secant(t, k - 1)
    } else {
        half_sum(secant(t, k - 1), secant(t, k))
    }
}
