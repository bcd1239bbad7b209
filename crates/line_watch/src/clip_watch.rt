//! Watches how many codes of each channel are clipped.

ghost use Rattle.std.specs.Prelude.{◌≡◌, ◌==◌, ◌≤◌, if◌then◌else◌};
ghost use Rattle.ctl_base.specs.Steps.{one_more};
ghost use Rattle.line_watch.specs.Tally.{before_lines, greatest_code};

use crate::counts::{counted, greatest};
use crate::pixels::{SeesPixels, see_line};
use crate::watcher::{Tally, Watcher};
use std::marker::Model;

// How many of some codes are 0, and how many are the greatest of their depth.
#[derive(Clone, Copy, Debug)]
struct Clipped {
    low: u64,
    high: u64,
}

impl Clipped {
    fn with(self, depth: u8, code: u16) -> Clipped
        requires { (8 ≤ depth) × (depth ≤ 16) }
        ensures low { result.low ≡ (if code == 0 then one_more self.low else self.low) }
        ensures high { result.high ≡ (if code == greatest_code depth then one_more self.high else self.high) }
    {
        Clipped {
            low: counted(self.low, code == 0),
            high: counted(self.high, u32::from(code) == greatest(depth)),
        }
    }
}

// The count of no codes.
const NO_CODES: Clipped = Clipped { low: 0, high: 0 };

/// How many codes of each channel are 0, and how many the greatest of their line's depth. Contracts see its numbers.
#[derive(Debug, Drop)]
pub struct ClipWatch {
    red: Clipped,
    green: Clipped,
    blue: Clipped,
}

impl Model for ClipWatch {
    ghost use Rattle.std.specs.Prelude.{List, ℕ, ◌∷◌, replicate};

    ghost Value = { List ℕ };

    ghost view = { λ w. w.red.low ∷ w.red.high ∷ w.green.low ∷ w.green.high ∷ w.blue.low ∷ w.blue.high ∷ replicate 42 0 };
}

impl ClipWatch {
    #[tactic(auto, unfolding(crate::specs::Tally::before_lines))]
    pub fn new() -> ClipWatch
        ensures { result ≡ before_lines 2 }
    {
        ClipWatch {
            red: NO_CODES,
            green: NO_CODES,
            blue: NO_CODES,
        }
    }
}

impl SeesPixels for ClipWatch {
    ghost kind_seen = { λ _. 2 };

    ghost numbers_seen = { λ w. w };

    fn see(&mut self, depth: u8, red: u16, green: u16, blue: u16) {
        self.red = self.red.with(depth, red);
        self.green = self.green.with(depth, green);
        self.blue = self.blue.with(depth, blue);
    }
}

impl Watcher for ClipWatch {
    ghost kind_of = { λ _. 2 };

    ghost tally = { λ w. w };

    fn kind(&self) -> u8 {
        2
    }

    fn show(&mut self, depth: u8, line: &[u16]) {
        see_line(self, depth, line);
    }

    fn report(&self) -> Tally {
        let mut numbers = [0; 48];
        numbers[0] = self.red.low;
        numbers[1] = self.red.high;
        numbers[2] = self.green.low;
        numbers[3] = self.green.high;
        numbers[4] = self.blue.low;
        numbers[5] = self.blue.high;
        Tally { kind: 2, numbers }
    }
}
