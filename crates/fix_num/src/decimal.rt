//! Numbers from their decimal spelling.

ghost use Rattle.std.specs.Prelude.{◌≡◌, ℕ, ℤ, pos, ◌*ℤ◌, ◌≤ℤ◌, ◌^◌, ◌*◌, ◌≤◌, unsigned_abs};
ghost use Rattle.fix_num.specs.Fixed.{rnd, sat};
ghost use Rattle.fix_num.specs.Decimal.{Reads, nearest, SpellsOnce, DigitsGrow};

use crate::fix::{Fix, saturated};
use crate::rounding::rnd;
use crate::spelling::{number_of, split_parts};
use crate::{FRACTION, ONE};

/// Why a text gives no number.
#[derive(Debug, Drop)]
pub enum LiteralFault {
    /// The text is not the spelling of a decimal number.
    NotANumber,
    /// There are more significant digits than are read.
    TooManyDigits,
}

// The greatest power of ten below 2^127.
const MOST_PLACES: u32 = 38;

/// The number that a text spells: an optional sign, digits with at most one point among or
/// beside them and at least one digit, and optionally `e` or `E`, an optional sign and one to
/// four digits. The digits before the exponent, from the first that is not 0 on, may be at most
/// 25. The number is rounded, and is the end of the range where the spelled one is beyond.
pub fn read_decimal(text: &[u8]) -> Result<Fix, LiteralFault>
    ensures { Reads FRACTION text.now result }
{
    let Some(parts) = split_parts(text) else {
        return Err(LiteralFault::NotANumber);
    };
    let Some(digits) = number_of(parts.whole, parts.part) else {
        return Err(LiteralFault::TooManyDigits);
    };
    let size = digits as i128 * ONE;
    let power = parts.exponent - parts.part.len() as i128;
    Ok(scaled(if parts.negative { -size } else { size }, power))
}

/// The law that a text spells at most one number.
pub fn spells_once()
    ensures { SpellsOnce }
{}

/// The law that more digits make no number less.
pub fn digits_grow()
    ensures { DigitsGrow }
{}

// n * 10^power, rounded and saturated.
fn scaled(n: i128, power: i128) -> Fix
    requires room { unsigned_abs n ≤ 2 ^ 124 }
    ensures { result ≡ sat (nearest n power) }
{
    if power < 0 {
        lowered(n, power.unsigned_abs())
    } else {
        raised(n, power.unsigned_abs())
    }
}

fn raised(n: i128, places: u128) -> Fix
    ensures { result ≡ sat (n *ℤ pos (10 ^ places)) }
{
    let fitting = places.min(MOST_PLACES as u128) as u32;
    saturated(n.saturating_mul(power_of_ten(fitting)))
}

fn lowered(n: i128, places: u128) -> Fix
    requires room { unsigned_abs n ≤ 2 ^ 124 }
    ensures { result ≡ sat (rnd n (pos (10 ^ places))) }
{
    if places > MOST_PLACES as u128 {
        saturated(0)
    } else {
        saturated(rnd(n, power_of_ten(places as u32)))
    }
}

fn power_of_ten(places: u32) -> i128
    requires { places ≤ MOST_PLACES }
    ensures value { result ≡ pos (10 ^ places) }
    ensures least { pos 1 ≤ℤ result }
    ensures most { result ≤ℤ pos (10 ^ 38) }
{
    10u128.pow(places) as i128
}
