//! Sine, cosine, tangent and their inverses. Each value is fixed to the last bit by its definition.
#![tactic(auto)]

pub use arc::{acos, asin, atan, atan2, ends_at_its_angle};
pub use circle::{cos, sin, tan};
pub use turn::turns_fit;

mod arc;
mod circle;
mod constants;
mod turn;
