//! Watches in which bins the codes of each channel are, and keeps the counts in an array.

ghost use Rattle.std.specs.Prelude.{◌≡◌, ◌<◌};
ghost use Rattle.line_watch.specs.Means.{one_more_at};
ghost use Rattle.line_watch.specs.Tally.{before_lines};

use crate::counts::{bin, counted};
use crate::pixels::{SeesPixels, see_line};
use crate::watcher::{Tally, Watcher};
use std::marker::Model;

/// How many codes of each channel are in each of sixteen bins: an array, which contracts see as its numbers.
#[derive(Debug, Drop)]
pub struct BinArray {
    counts: [u64; 48],
}

impl Model for BinArray {
    ghost use Rattle.std.specs.Prelude.{List, ℕ};

    ghost Value = { List ℕ };

    ghost view = { λ b. b.counts };
}

impl BinArray {
    #[tactic(auto, unfolding(crate::specs::Tally::before_lines))]
    pub fn new() -> BinArray
        ensures { result ≡ before_lines 4 }
    {
        BinArray { counts: [0; 48] }
    }

    // One more at a place.
    fn raise(&mut self, place: u8)
        requires { place < 48 }
        ensures { self.new ≡ one_more_at place self.old }
    {
        let place = usize::from(place);
        self.counts[place] = counted(self.counts[place], true);
    }
}

impl SeesPixels for BinArray {
    ghost kind_seen = { λ _. 4 };

    ghost numbers_seen = { λ b. b };

    fn see(&mut self, depth: u8, red: u16, green: u16, blue: u16) {
        self.raise(bin(depth, red));
        self.raise(16 + bin(depth, green));
        self.raise(32 + bin(depth, blue));
    }
}

impl Watcher for BinArray {
    ghost kind_of = { λ _. 4 };

    ghost tally = { λ b. b };

    fn kind(&self) -> u8 {
        4
    }

    fn show(&mut self, depth: u8, line: &[u16]) {
        see_line(self, depth, line);
    }

    fn report(&self) -> Tally {
        Tally {
            kind: 4,
            numbers: self.counts,
        }
    }
}
