//! Look-ups in tables of numbers, by straight lines and by cubic curves, over one index or three;
//! and matrices of numbers. Every result is exact to the last bit of its definition.
//!
//! Nothing here takes memory, and no call refuses.
#![tactic(auto)]

pub use colour::rgb_to_xyz;
pub use lattice::lookup3;
pub use pairs::{interp_cubic1, interp1};
pub use uniform::{lookup_cubic1, lookup1};

mod axis;
mod colour;
mod curve;
mod lattice;
pub mod matrix;
mod pairs;
mod uniform;

use fix_num::FRACTION;

/// The raw of 1.0.
const ONE: i128 = 1 << FRACTION;

/// The raw of 1.0 in 64 bits.
const ONE_64: u64 = 1 << FRACTION;
