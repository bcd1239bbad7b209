//! Files by name, as a trait.

ghost use Rattle.std.specs.Prelude.{ℕ, List, [], ◌∷◌, ◌++◌, Option, ◌≡◌, ◌≢◌, ◌≤◌, length, is_err, IfOk, IfSome, IsOk};
ghost use Rattle.outside.specs.Calls.{FileCall, Fetch, Has, Store, file_call};
ghost use Rattle.outside.specs.Causes.{HasCause, Rose, raised};
ghost use Rattle.outside.specs.Files.{Held, fetch_of, holds, is_failed, IsWithinLimit, FetchHasCause, Stores};
ghost use Rattle.outside.specs.ReadsAlone.{ReadsAlone};

use ctl_base::{ByteText, Memory};
use std::alloc::Global;

/// What a fetch finds.
#[derive(Debug, Drop)]
pub enum Fetched {
    /// The bytes of the file, at most as many as the limit.
    Bytes(ByteText),
    /// No file has the name.
    Absent,
    /// The file has more bytes than the limit.
    TooLong { limit: u64 },
}

/// Why a fetch gives nothing.
#[derive(Clone, Copy, Debug, PartialEq, Eq)]
pub enum FetchFault {
    /// The files failed, which they count.
    Failed,
    /// There was no memory for the bytes.
    Memory,
}

impl From<Memory> for FetchFault {
    ghost use Rattle.outside.specs.declared.files.FetchFault.TheVariants.{Memory as NoMemory};

    ghost from_gives = { λ _ e. e ≡ NoMemory };

    fn from(_: Memory) -> FetchFault {
        FetchFault::Memory
    }
}

/// The files or the console failed, which they count.
#[derive(Clone, Copy, Debug, PartialEq, Eq)]
pub struct Failed;

impl From<Failed> for FetchFault {
    ghost use Rattle.outside.specs.declared.files.FetchFault.TheVariants.{Failed as NoAnswer};

    ghost from_gives = { λ _ e. e ≡ NoAnswer };

    fn from(_: Failed) -> FetchFault {
        FetchFault::Failed
    }
}

// Counts a failure.
pub(crate) fn count_failure(count: &mut u64) -> Failed
    ensures counts { count.new ≡ raised count.old }
    ensures rose { Rose count.old count.new }
{
    *count = count.saturating_add(1);
    Failed
}

/// Files by name.
pub trait FileBox {
    /// The bytes of each file by its name, where the box tells them.
    ghost held: { Self → Option Held };

    /// The calls so far, the oldest first.
    ghost asked: { Self → List FileCall };

    /// How often `fetch` and `has` have failed. It never falls, and stops at 2^64 - 1.
    ghost faults: { Self → ℕ };

    /// How often `store` has failed. It never falls, and stops at 2^64 - 1.
    ghost lost: { Self → ℕ };

    /// No call fails from here on, where one store follows, of at most so many bytes under the name.
    ghost serves: { Self → List ℕ → ℕ → Type 0 };

    /// The bytes of the named file, if it has at most `limit` bytes. Leaves the files as they are.
    fn fetch(&mut self, alloc: Global, name: &str, limit: u64) -> Result<Fetched, FetchFault>
        ensures reads { ReadsAlone held lost serves self.old self.new }
        ensures asks { asked self.new ≡ asked self.old ++ file_call Fetch name.now (is_failed result) ∷ [] }
        ensures cause { FetchHasCause (faults self.old) (faults self.new) result }
        ensures within { IfOk result (IsWithinLimit limit) }
        ensures answer { IfOk result (λ got. IfSome (held self.old) (λ files. got ≡ fetch_of files name.now limit)) }
        ensures served { (to : List ℕ) (n : ℕ) → serves self.old to n → result ≢ Err FetchFault.Failed };

    /// Whether a file has the name. Leaves the files as they are.
    fn has(&mut self, name: &str) -> Result<bool, Failed>
        ensures reads { ReadsAlone held lost serves self.old self.new }
        ensures asks { asked self.new ≡ asked self.old ++ file_call Has name.now (is_err result) ∷ [] }
        ensures cause { HasCause (faults self.old) (faults self.new) result }
        ensures answer { IfOk result (λ yes. IfSome (held self.old) (λ files. yes ≡ holds files name.now)) }
        ensures served { (to : List ℕ) (n : ℕ) → serves self.old to n → IsOk result };

    /// Makes the name hold the bytes, and leaves every other file as it is. After `Failed` the name
    /// is as it was, is absent or holds a prefix of the bytes.
    fn store(&mut self, name: &str, bytes: &[u8]) -> Result<(), Failed>
        ensures asks { asked self.new ≡ asked self.old ++ file_call Store name.now (is_err result) ∷ [] }
        ensures faults_stay { faults self.new ≡ faults self.old }
        ensures cause { HasCause (lost self.old) (lost self.new) result }
        ensures stored { Stores (held self.old) (held self.new) name.now bytes.now result }
        ensures served { (n : ℕ) → serves self.old name.now n → length bytes.now ≤ n → IsOk result };
}
