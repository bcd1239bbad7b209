//! Directions, and turning them by the constants.

ghost use Rattle.std.specs.Prelude.{◌≡◌, ℕ, ℤ, pos, ◌-ℤ◌, ◌*ℤ◌, ◌+◌, ◌-◌, ◌*◌, ◌^◌, ◌<◌, unsigned_abs};
ghost use Rattle.fix_num.specs.Fixed.{rnd};
ghost use Rattle.fix_trig.specs.Turn.{cosine, sine, direction_at, turned};
ghost use Rattle.fix_trig.specs.Bound.{bound, IsBounded, TurnFits, TurnsFit};
ghost use Rattle.fix_trig.specs.Means.{vector_of};

use crate::constants::{TURNS, Turn};
use fix_num::{FRACTION, rnd_shift, root_is_floor, rounding_is_nearest};

/// A point beside the circle of radius 2^62 about (0, 0): the cosine and the sine of an angle, times 2^62.
#[derive(Clone, Copy)]
pub(crate) struct UnitVector {
    pub(crate) x: i128,
    pub(crate) y: i128,
}

// How many fraction bits the parts of directions and turns have.
const SCALE: u32 = 62;

// The direction of the angle 0.
pub(crate) const START: UnitVector = UnitVector {
    x: 1 << SCALE,
    y: 0,
};

/// The law that 128 bits hold all products of the first 40 turns, and those of what they give with numbers below 2^63.
pub fn turns_fit()
    ensures { TurnsFit 40 }
{
    root_is_floor();
    rounding_is_nearest();
}

// The direction at the fraction `f / 2^FRACTION` of a quarter turn.
pub(crate) fn direction_of(f: u64) -> UnitVector
    ensures value { vector_of result ≡ direction_at FRACTION f FRACTION }
    ensures within { IsBounded (2 ^ 64 - 1) (vector_of result) }
{
    turns_fit();
    let mut at = START;
    'bits: for k in 0..FRACTION {
        if (f >> (FRACTION - 1 - k)) & 1 == 1 {
            at = turn_by(at, k);
        }
    }
    at
}

// The direction that is turned by the constants of index k.
pub(crate) fn turn_by(at: UnitVector, k: u32) -> UnitVector
    requires index { k < FRACTION }
    requires fits { TurnFits k }
    requires within { IsBounded (bound k) (vector_of at) }
    ensures value { vector_of result ≡ turned k (vector_of at) }
    ensures within { IsBounded (bound (k + 1)) (vector_of result) }
{
    let Turn { cosine, sine } = constants(k);
    UnitVector {
        x: difference(at.x, at.y, cosine, sine),
        y: difference(at.y, -at.x, cosine, sine),
    }
}

// The constants of index k.
fn constants(k: u32) -> Turn
    requires { k < FRACTION }
    ensures cosine { result.cosine ≡ cosine k }
    ensures sine { result.sine ≡ sine k }
{
    root_is_floor();
    rounding_is_nearest();
    TURNS[k as usize]
}

// `p * c - q * s`, without the lowest 62 bits.
fn difference(p: i128, q: i128, c: u64, s: u64) -> i128
    requires { 2 * (unsigned_abs p * c + unsigned_abs q * s) + 2 ^ 62 < 2 ^ 127 }
    ensures { result ≡ rnd (p *ℤ pos c -ℤ q *ℤ pos s) (pos (2 ^ 62)) }
{
    rnd_shift(p * c as i128 - q * s as i128, SCALE)
}
