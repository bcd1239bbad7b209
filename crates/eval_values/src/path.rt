//! The numbers of parts on the way into a variable.

ghost use Rattle.std.specs.Prelude.{◌≡◌, [], ◌∷◌, ◌++◌, IfOk, IfErr};

use ctl_base::Memory;
use smallvec::SmallVec;
use std::alloc::Global;
use std::marker::Model;

/// The numbers of parts on the way into a variable. A short way takes no memory.
#[derive(Drop)]
pub struct Path {
    parts: SmallVec<usize, 4>,
}

impl Model for Path {
    ghost use Rattle.std.specs.Prelude.{List, ℕ};

    ghost Value = { List ℕ };

    ghost view = { λ p. p.parts.items };
}

impl Path {
    pub fn new(alloc: Global) -> Path
        ensures { result ≡ [] }
    {
        Path {
            parts: SmallVec::new(alloc),
        }
    }

    /// Puts the number of a part last.
    pub fn push(&mut self, part: usize) -> Result<(), Memory>
        ensures last { IfOk result (λ _. self.new ≡ self.old ++ (part ∷ [])) }
        ensures kept { IfErr result (λ _. self.new ≡ self.old) }
    {
        self.parts.push(part)?;
        Ok(())
    }

    pub fn as_slice(&self) -> &[usize]
        ensures { result.now ≡ self.now }
    {
        self.parts.as_slice()
    }
}
