//! What every watcher of lines can do, and boxes of watchers.

ghost use Rattle.std.specs.Prelude.{◌≡◌, ◌≤◌, ℕ, List};
ghost use Rattle.line_watch.specs.Tally.{IsLine, IsPadded, after_line};

/// A kind from 1 to 4, and its numbers for red, then green, then blue. Numbers past those of the kind are 0.
#[derive(Clone, Copy, Debug, PartialEq, Eq)]
pub struct Tally {
    pub kind: u8,
    pub numbers: [u64; 48],
}

/// Watches lines, and tells what it has seen. Sums and counts stop at 2^64 - 1.
pub trait Watcher: Drop {
    ghost kind_of: { Self → ℕ };

    ghost tally: { Self → List ℕ };

    fn kind(&self) -> u8
        ensures value { result ≡ kind_of self.now }
        ensures known { (1 ≤ result) × (result ≤ 4) };

    /// Takes the tally one line on.
    fn show(&mut self, depth: u8, line: &[u16])
        requires { IsLine depth line.now }
        ensures kind { kind_of self.new ≡ kind_of self.old }
        ensures tally { tally self.new ≡ after_line (kind_of self.old) depth (tally self.old) line.now };

    /// The tally of the lines so far.
    fn report(&self) -> Tally
        ensures kind { result.kind ≡ kind_of self.now }
        ensures numbers { result.numbers ≡ tally self.now }
        ensures padded { IsPadded result.kind result.numbers };
}

impl Watcher for Box<dyn Watcher> {
    ghost kind_of = { λ b. (Watcher-box b).kind_of b.value };

    ghost tally = { λ b. (Watcher-box b).tally b.value };

    fn kind(&self) -> u8 {
        (**self).kind()
    }

    fn show(&mut self, depth: u8, line: &[u16]) {
        (**self).show(depth, line);
    }

    fn report(&self) -> Tally {
        (**self).report()
    }
}
