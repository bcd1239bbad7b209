//! Operators and conversions on the scalars of a program.
#![tactic(auto)]

pub use scalars::{as_kind, in_range, is_of, of_one, of_two, zero_scalar};

mod scalars;
