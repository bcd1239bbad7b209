//! Watchers of lines: least and greatest codes, clipped codes, sums, and counts in bins.
#![tactic(auto)]

pub mod bin_array;
pub mod bin_map;
pub mod clip_watch;
mod counts;
pub mod lines;
mod pixels;
pub mod range_watch;
pub mod sum_watch;
pub mod watcher;

pub use bin_array::BinArray;
pub use bin_map::BinMap;
pub use clip_watch::ClipWatch;
pub use lines::{bins_agree, show_lines};
pub use range_watch::RangeWatch;
pub use sum_watch::SumWatch;
pub use watcher::{Tally, Watcher};

#[cfg(test)]
mod tests;
