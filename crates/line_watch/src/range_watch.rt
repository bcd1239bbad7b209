//! Watches the least and the greatest code of each channel.

ghost use Rattle.std.specs.Prelude.{◌≡◌, min, max};
ghost use Rattle.line_watch.specs.Tally.{before_lines};

use crate::pixels::{SeesPixels, see_line};
use crate::watcher::{Tally, Watcher};
use std::marker::Model;

// The least and the greatest of some codes.
#[derive(Clone, Copy, Debug)]
struct CodeRange {
    least: u16,
    greatest: u16,
}

impl CodeRange {
    fn with(self, code: u16) -> CodeRange
        ensures least { result.least ≡ min self.least code }
        ensures greatest { result.greatest ≡ max self.greatest code }
    {
        CodeRange {
            least: self.least.min(code),
            greatest: self.greatest.max(code),
        }
    }
}

// The range of no codes.
const NO_CODES: CodeRange = CodeRange {
    least: u16::MAX,
    greatest: 0,
};

/// The least and the greatest code of each channel, which contracts see as its numbers.
#[derive(Debug, Drop)]
pub struct RangeWatch {
    red: CodeRange,
    green: CodeRange,
    blue: CodeRange,
}

impl Model for RangeWatch {
    ghost use Rattle.std.specs.Prelude.{List, ℕ, ◌∷◌, replicate};

    ghost Value = { List ℕ };

    ghost view = { λ w. w.red.least ∷ w.red.greatest ∷ w.green.least ∷ w.green.greatest ∷ w.blue.least ∷ w.blue.greatest ∷ replicate 42 0 };
}

impl RangeWatch {
    #[tactic(auto, unfolding(crate::specs::Tally::before_lines))]
    pub fn new() -> RangeWatch
        ensures { result ≡ before_lines 1 }
    {
        RangeWatch {
            red: NO_CODES,
            green: NO_CODES,
            blue: NO_CODES,
        }
    }
}

impl SeesPixels for RangeWatch {
    ghost kind_seen = { λ _. 1 };

    ghost numbers_seen = { λ w. w };

    #[tactic(auto, unfolding(crate::specs::Tally::after_line))]
    fn see(&mut self, _depth: u8, red: u16, green: u16, blue: u16) {
        self.red = self.red.with(red);
        self.green = self.green.with(green);
        self.blue = self.blue.with(blue);
    }
}

impl Watcher for RangeWatch {
    ghost kind_of = { λ _. 1 };

    ghost tally = { λ w. w };

    fn kind(&self) -> u8 {
        1
    }

    fn show(&mut self, depth: u8, line: &[u16]) {
        see_line(self, depth, line);
    }

    fn report(&self) -> Tally {
        let mut numbers = [0; 48];
        numbers[0] = u64::from(self.red.least);
        numbers[1] = u64::from(self.red.greatest);
        numbers[2] = u64::from(self.green.least);
        numbers[3] = u64::from(self.green.greatest);
        numbers[4] = u64::from(self.blue.least);
        numbers[5] = u64::from(self.blue.greatest);
        Tally { kind: 1, numbers }
    }
}
