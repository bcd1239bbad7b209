//! One lane.

use fix_num::Fix;
use sqlite_items::Items;

/// One lane: its own words, the words that all lanes share, the turns left, and what its run has cost, which stops at
/// 2^64 - 1.
#[derive(Drop)]
pub struct Lane {
    pub words: Items<Fix>,
    pub uniform: Items<Fix>,
    pub turns: u32,
    pub cost: u64,
}
