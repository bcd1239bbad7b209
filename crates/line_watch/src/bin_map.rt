//! Watches in which bins the codes of each channel are, and keeps the counts in an ordered map.

ghost use Rattle.std.specs.Prelude.{◌≡◌, ◌<◌, IfOk};
ghost use Rattle.std.specs.BTreeMap.{get};
ghost use Rattle.std.specs.Option.{unwrap_or};
ghost use Rattle.std.specs.Ordering.{nat_cmp};
ghost use Rattle.line_watch.specs.Means.{one_more_at};
ghost use Rattle.line_watch.specs.Tally.{before_lines};

use crate::counts::{bin, counted};
use crate::pixels::{SeesPixels, see_line};
use crate::watcher::{Tally, Watcher};
use ctl_base::Memory;
use std::alloc::Global;
use std::collections::BTreeMap;
use std::marker::Model;

/// How many codes of each channel are in each of sixteen bins: an ordered map, which contracts see as its numbers.
#[derive(Debug, Drop)]
pub struct BinMap {
    counts: BTreeMap<u8, u64>,
}

impl Model for BinMap {
    ghost use Rattle.std.specs.Prelude.{List, ℕ};
    ghost use Rattle.std.specs.BTreeMap.{values};
    ghost use Rattle.line_watch.specs.Means.{HasEachPlace};

    ghost Value = { List ℕ };

    ghost view = { λ b. values b.counts };

    ghost invariant = { λ b. HasEachPlace b.counts.entries };
}

impl BinMap {
    #[tactic(auto, unfolding(crate::specs::Tally::before_lines))]
    pub fn new(alloc: Global) -> Result<BinMap, Memory>
        ensures { IfOk result (λ b. b ≡ before_lines 4) }
    {
        let mut counts = BTreeMap::new(alloc);
        'places: for place in 0..48 {
            counts.insert(place, 0)?;
        }
        Ok(BinMap { counts })
    }

    // One more at a place.
    fn raise(&mut self, place: u8)
        requires { place < 48 }
        ensures { self.new ≡ one_more_at place self.old }
    {
        let Some(count) = self.counts.get_mut(&place) else {
            return;
        };
        *count = counted(*count, true);
    }
}

// What a map has at a place, or 0.
fn count_at(counts: &BTreeMap<u8, u64>, place: u8) -> u64
    ensures { result ≡ unwrap_or (get nat_cmp counts.now place) 0 }
{
    counts.get(&place).copied().unwrap_or(0)
}

impl SeesPixels for BinMap {
    ghost kind_seen = { λ _. 4 };

    ghost numbers_seen = { λ b. b };

    fn see(&mut self, depth: u8, red: u16, green: u16, blue: u16) {
        self.raise(bin(depth, red));
        self.raise(16 + bin(depth, green));
        self.raise(32 + bin(depth, blue));
    }
}

impl Watcher for BinMap {
    ghost kind_of = { λ _. 4 };

    ghost tally = { λ b. b };

    fn kind(&self) -> u8 {
        4
    }

    fn show(&mut self, depth: u8, line: &[u16]) {
        see_line(self, depth, line);
    }

    fn report(&self) -> Tally {
        let counts = &self.counts;
        let mut numbers = [0; 48];
        'places: for place in 0..48 {
            numbers[usize::from(place)] = count_at(counts, place);
        }
        Tally { kind: 4, numbers }
    }
}
