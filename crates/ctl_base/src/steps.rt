//! The counting of steps.

ghost use Rattle.std.specs.Prelude.{◌≡◌, ℕ};
ghost use Rattle.ctl_base.specs.Steps.{one_more};

use std::marker::Model;

/// Counts steps, up to 2^64 - 1.
pub trait Ledger {
    ghost steps: { Self → ℕ };

    /// One more step. At 2^64 - 1 the count stays.
    fn tick(&mut self)
        ensures { steps self.new ≡ one_more (steps self.old) };

    fn count(&self) -> u64
        ensures { result ≡ steps self.now };
}

/// A ledger that begins at 0.
#[derive(Debug, Drop)]
pub struct Counter64 {
    steps: u64,
}

impl Model for Counter64 {
    ghost use Rattle.std.specs.Prelude.{ℕ};

    ghost Value = { ℕ };

    ghost view = { λ c. c.steps };
}

impl Counter64 {
    pub fn new() -> Counter64
        ensures { result ≡ 0 }
    {
        Counter64 { steps: 0 }
    }
}

impl Ledger for Counter64 {
    ghost steps = { λ c. c };

    fn tick(&mut self) {
        self.steps = self.steps.saturating_add(1);
    }

    fn count(&self) -> u64 {
        self.steps
    }
}

/// The steps of a run, counted by a ledger.
#[derive(Debug, Drop)]
pub struct Steps<L: Ledger> {
    ledger: L,
}

impl<L: Ledger> Model for Steps<L> {
    ghost use Rattle.std.specs.Prelude.{ℕ};

    ghost Value = { ℕ };

    ghost view = { λ s. L.steps s.ledger };
}

impl<L: Ledger> Steps<L> {
    pub fn new(ledger: L) -> Steps<L>
        ensures { result ≡ L.steps ledger }
    {
        Steps { ledger }
    }

    pub fn tick(&mut self)
        ensures { self.new ≡ one_more self.old }
    {
        self.ledger.tick();
    }

    pub fn count(&self) -> u64
        ensures { result ≡ self.now }
    {
        self.ledger.count()
    }
}

#[cfg(test)]
mod tests {
    use super::*;

    #[test]
    fn counts_from_nothing_to_the_last_value(rt: HostRuntime) {
        let mut steps = Steps::new(Counter64::new());
        assert_eq!(rt; steps.count(), 0);
        steps.tick();
        steps.tick();
        assert_eq!(rt; steps.count(), 2);
        let mut last = Steps::new(Counter64 { steps: u64::MAX });
        last.tick();
        assert_eq!(rt; last.count(), u64::MAX);
    }
}
