//! Powers, logarithms and roots of numbers with a fixed point. Nothing is refused: each function answers every number.
#![tactic(auto)]

pub use general::{fmod, hypot, pow, sqrt};
pub use laws::{exponent_is_greatest, floor_log2_is_floor, power_grows};
pub use logarithms::{log, log2, log10};
pub use powers::{exp, exp2, pow10};

mod constants;
mod general;
mod laws;
mod logarithms;
mod powers;
