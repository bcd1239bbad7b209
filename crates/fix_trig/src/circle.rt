//! Sine, cosine and tangent.

ghost use Rattle.std.specs.Prelude.{◌≡◌, ℕ, ℤ, pos, ◌-◌, ◌^◌, ◌<◌, unsigned_abs};
ghost use Rattle.fix_num.specs.Fixed.{rnd};
ghost use Rattle.fix_trig.specs.Angle.{fix_sin, fix_cos, fix_tan, quarter_turns, quarter, within_quarter};
ghost use Rattle.fix_trig.specs.Turn.{direction_at};
ghost use Rattle.fix_trig.specs.Bound.{IsBounded};
ghost use Rattle.fix_trig.specs.Means.{vector_of};

use crate::turn::{UnitVector, direction_of};
use fix_num::{FRACTION, Fix, TWO_OVER_PI, rnd_shift, rounding_keeps_bounds};

/// The sine of an angle in radians.
pub fn sin(x: Fix) -> Fix
    ensures { result ≡ fix_sin FRACTION x }
{
    let position = locate(x);
    match position.quarter {
        0 => shortened(position.at.y),
        1 => shortened(position.at.x),
        2 => shortened(-position.at.y),
        _ => shortened(-position.at.x),
    }
}

/// The cosine of an angle in radians.
pub fn cos(x: Fix) -> Fix
    ensures { result ≡ fix_cos FRACTION x }
{
    let position = locate(x);
    match position.quarter {
        0 => shortened(position.at.x),
        1 => shortened(-position.at.y),
        2 => shortened(-position.at.x),
        _ => shortened(position.at.y),
    }
}

/// The tangent of an angle in radians: the sine divided by the cosine.
pub fn tan(x: Fix) -> Fix
    ensures { result ≡ fix_tan FRACTION x }
{
    sin(x).div(cos(x))
}

// Where an angle lies: in which quarter of the circle, and in which direction once it is turned back to the first.
#[derive(Drop)]
struct Position {
    quarter: u64,
    at: UnitVector,
}

fn locate(x: Fix) -> Position
    ensures quarter { result.quarter ≡ quarter FRACTION (quarter_turns x) }
    ensures last { result.quarter < 4 }
    ensures at { vector_of result.at ≡ direction_at FRACTION (within_quarter FRACTION (quarter_turns x)) FRACTION }
    ensures within { IsBounded (2 ^ 64 - 1) (vector_of result.at) }
{
    let turns = x.times(TWO_OVER_PI).raw();
    Position {
        quarter: turns.div_euclid(1 << FRACTION).rem_euclid(4) as u64,
        at: direction_of(turns.rem_euclid(1 << FRACTION) as u64),
    }
}

// The number that a part of a direction stands for.
fn shortened(part: i128) -> Fix
    requires { unsigned_abs part < 2 ^ 64 }
    ensures { result ≡ rnd part (pos (2 ^ (62 - FRACTION))) }
{
    rounding_keeps_bounds();
    Fix::from_raw(rnd_shift(part, 62 - FRACTION) as i64)
}
