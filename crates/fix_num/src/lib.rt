//! Numbers with a fixed point: a `Fix` is a whole number `raw` that stands for `raw / 2^FRACTION`.
//! Results are rounded to the nearest raw and end at the ends of the range. Beside the arithmetic
//! stand halves, whole numbers of 32 bits, pixel codes, square roots and decimal spellings.
//!
//! Nothing here takes memory, and no call but `read_decimal` refuses.
#![tactic(auto)]

pub use codes::codes_return;
pub use constants::{HALF_PI, LN_2, LOG2_E, LOG2_TEN, LOG10_2, TWO_OVER_PI};
pub use decimal::{LiteralFault, digits_grow, read_decimal, spells_once};
pub use fix::{Fix, saturated, saturation_clamps};
pub use halves::{half_grows, half_is_nearest, half_keeps};
pub use integers::{WholeOp, as_int, as_unsigned, of_bool, truth, whole};
pub use ranges::{
    arithmetic_stays_in_range, codes_stay_in_range, halves_stay_in_range, wholes_stay_in_range,
};
pub use roots::{isqrt, root_is_floor};
pub use rounding::{floor_is_greatest, rnd, rnd_shift, rounding_is_nearest, rounding_keeps_bounds};

mod codes;
mod constants;
mod decimal;
mod fix;
mod halves;
mod integers;
mod ranges;
mod roots;
mod rounding;
mod spelling;

/// The number of fraction bits.
pub const FRACTION: u32 = 32;

/// The raw of 1.0.
const ONE: i128 = 1 << FRACTION;

/// The raw of 1.0 in 64 bits.
const ONE_64: u64 = 1 << FRACTION;

/// The greatest raw.
const MAX_RAW: i128 = i64::MAX as i128;
