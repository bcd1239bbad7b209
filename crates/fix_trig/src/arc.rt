//! The angles of points, and of sines, cosines and tangents.

ghost use Rattle.std.specs.Prelude.{◌≡◌, ℕ, ℤ, pos, ◌-◌, ◌*◌, ◌^◌, ◌<◌, ◌≤ℤ◌, ◌-ℤ◌, if◌then◌else◌};
ghost use Rattle.fix_num.specs.Fixed.{IsRaw};
ghost use Rattle.fix_trig.specs.Bound.{IsBounded};
ghost use Rattle.fix_trig.specs.Means.{vector_of};
ghost use Rattle.fix_trig.specs.Angle.{fix_atan2, fix_asin, fix_acos, fix_atan, EndsAtItsAngle, found, is_at_or_beyond, unfolded, root_of_rest, clamped_to_one};

use crate::turn::{START, UnitVector, turn_by, turns_fit};
use fix_num::{FRACTION, Fix, HALF_PI};

// The raw of 1.0, and of a quarter turn in quarter turns.
const ONE: i64 = 1 << FRACTION;

/// The angle in radians at which the point (x, y) lies, from -pi to pi, and 0 for the point (0, 0).
pub fn atan2(y: Fix, x: Fix) -> Fix
    ensures { result ≡ fix_atan2 FRACTION y x }
{
    let across = x.raw();
    let up = y.raw();
    let u = across.unsigned_abs().max(up.unsigned_abs());
    let v = across.unsigned_abs().min(up.unsigned_abs());
    if u == 0 {
        return Fix::from_raw(0);
    }
    Fix::from_raw(unfolded(search(u, v), up, across)).times(HALF_PI)
}

/// The angle in radians whose sine is x, from -pi / 2 to pi / 2. An x beyond -1.0 to 1.0 counts as the nearer end.
pub fn asin(x: Fix) -> Fix
    ensures { result ≡ fix_asin FRACTION x }
{
    let within = clamped_to_one(x);
    atan2(within, root_of_rest(within))
}

/// The angle in radians whose cosine is x, from 0 to pi. An x beyond -1.0 to 1.0 counts as the nearer end.
pub fn acos(x: Fix) -> Fix
    ensures { result ≡ fix_acos FRACTION x }
{
    let within = clamped_to_one(x);
    atan2(root_of_rest(within), within)
}

/// The angle in radians whose tangent is x, from -pi / 2 to pi / 2.
pub fn atan(x: Fix) -> Fix
    ensures { result ≡ fix_atan FRACTION x }
{
    atan2(x, Fix::from_raw(ONE))
}

/// The law that the search for the angle of a point ends in the direction of the angle that it finds.
pub fn ends_at_its_angle()
    ensures { EndsAtItsAngle }
{}

fn clamped_to_one(x: Fix) -> Fix
    ensures { result ≡ clamped_to_one FRACTION x }
{
    Fix::from_raw(x.raw().clamp(-ONE, ONE))
}

// The other short side of the triangle with the long side 1.0 and the short side x.
fn root_of_rest(x: Fix) -> Fix
    ensures { result ≡ root_of_rest FRACTION x }
{
    Fix::from_raw(ONE).sub(x.mul(x)).sqrt()
}

// The angle of the point (u, v), in quarter turns.
fn search(u: u64, v: u64) -> u64
    requires long { u < 2 ^ 63 }
    requires short { v < 2 ^ 63 }
    ensures value { result ≡ (found FRACTION u v FRACTION).angle }
    ensures within { result < 2 ^ FRACTION }
{
    turns_fit();
    let mut at = START;
    let mut angle = 0;
    'bits: for k in 0..FRACTION {
        let next = turn_by(at, k);
        if is_at_or_beyond(u, v, next) {
            at = next;
            angle += 1 << (FRACTION - 1 - k);
        }
    }
    angle
}

// Whether the point (u, v) lies in this direction or beyond.
fn is_at_or_beyond(u: u64, v: u64, direction: UnitVector) -> bool
    requires long { u < 2 ^ 63 }
    requires short { v < 2 ^ 63 }
    requires within { IsBounded (2 ^ 64 - 1) (vector_of direction) }
    ensures { result ≡ is_at_or_beyond u v (vector_of direction) }
{
    u as i128 * direction.y <= v as i128 * direction.x
}

// The angle in quarter turns of the point (x, y), from that of the longer side and the shorter one.
#[tactic(auto, unfolding(crate::specs::Angle::unfolded))]
fn unfolded(angle: u64, y: i64, x: i64) -> i64
    requires { angle < 2 ^ FRACTION }
    ensures value { result ≡ unfolded FRACTION (pos angle) y x }
    ensures raw { IsRaw result }
{
    let near = mirrored(x.unsigned_abs() < y.unsigned_abs(), ONE, angle as i64);
    let right = mirrored(x < 0, 2 * ONE, near);
    if y < 0 { -right } else { right }
}

// What an angle leaves of a greater one, where it is mirrored.
fn mirrored(is_mirrored: bool, whole: i64, angle: i64) -> i64
    requires some { pos 0 ≤ℤ angle }
    requires within { angle ≤ℤ whole }
    ensures value { result ≡ (if is_mirrored then whole -ℤ angle else angle) }
    ensures some { pos 0 ≤ℤ result }
    ensures within { result ≤ℤ whole }
{
    if is_mirrored { whole - angle } else { angle }
}
