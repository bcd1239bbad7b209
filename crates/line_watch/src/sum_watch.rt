//! Watches the sum of the codes of each channel.

ghost use Rattle.std.specs.Prelude.{◌≡◌};
ghost use Rattle.line_watch.specs.Tally.{before_lines};

use crate::counts::summed;
use crate::pixels::{SeesPixels, see_line};
use crate::watcher::{Tally, Watcher};
use std::marker::Model;

/// The sum of the codes of each channel, which contracts see as its numbers.
#[derive(Debug, Drop)]
pub struct SumWatch {
    red: u64,
    green: u64,
    blue: u64,
}

impl Model for SumWatch {
    ghost use Rattle.std.specs.Prelude.{List, ℕ, ◌∷◌, replicate};

    ghost Value = { List ℕ };

    ghost view = { λ w. w.red ∷ w.green ∷ w.blue ∷ replicate 45 0 };
}

impl SumWatch {
    #[tactic(auto, unfolding(crate::specs::Tally::before_lines))]
    pub fn new() -> SumWatch
        ensures { result ≡ before_lines 3 }
    {
        SumWatch {
            red: 0,
            green: 0,
            blue: 0,
        }
    }
}

impl SeesPixels for SumWatch {
    ghost kind_seen = { λ _. 3 };

    ghost numbers_seen = { λ w. w };

    fn see(&mut self, _depth: u8, red: u16, green: u16, blue: u16) {
        self.red = summed(self.red, red);
        self.green = summed(self.green, green);
        self.blue = summed(self.blue, blue);
    }
}

impl Watcher for SumWatch {
    ghost kind_of = { λ _. 3 };

    ghost tally = { λ w. w };

    fn kind(&self) -> u8 {
        3
    }

    fn show(&mut self, depth: u8, line: &[u16]) {
        see_line(self, depth, line);
    }

    fn report(&self) -> Tally {
        let mut numbers = [0; 48];
        numbers[0] = self.red;
        numbers[1] = self.green;
        numbers[2] = self.blue;
        Tally { kind: 3, numbers }
    }
}

#[cfg(test)]
mod tests {
    use super::*;

    #[test]
    fn sums_stop(rt: HostRuntime) {
        let mut watch = SumWatch {
            red: u64::MAX - 1,
            green: u64::MAX,
            blue: u64::MAX - 7,
        };
        watch.show(8, &[2, 0, 5]);
        watch.show(8, &[0, 1, 1]);
        let numbers = watch.report().numbers;
        assert_eq!(rt; numbers[0], u64::MAX);
        assert_eq!(rt; numbers[1], u64::MAX);
        assert_eq!(rt; numbers[2], u64::MAX - 1);
    }
}
