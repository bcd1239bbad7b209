//! The real files.

ghost use Rattle.std.specs.Prelude.{None, [], ◌∷◌, ◌++◌, ◌≡◌, IfOk, is_err};
ghost use Rattle.outside.specs.Calls.{Fetch, Has, Store, file_call};
ghost use Rattle.outside.specs.ReadsAlone.{ReadsAlone};
ghost use Rattle.outside.specs.Causes.{HasCause, counted};
ghost use Rattle.outside.specs.Files.{IsWithinLimit, is_failed, FetchHasCause};

use crate::calls::{Calls, NewCall};
use crate::files::{Failed, FetchFault, Fetched, FileBox, count_failure};
use crate::system::{answer_of, read_opened, write_opened};
use std::alloc::Global;
use std::fs;
use std::marker::Model;
use std::rt::Files;

/// The files of the system, by their paths. It tells nothing of what they hold, since nothing says
/// what a disk does.
#[derive(Drop)]
pub struct DiskBox<R: Files + Drop> {
    rt: R,
    asked: Calls,
    faults: u64,
    lost: u64,
}

impl<R: Files + Drop> Model for DiskBox<R> {
    ghost use Rattle.outside.specs.DiskBox.{DiskState};

    ghost Value = { DiskState };

    ghost view = { λ b. record { asked = b.asked.all; faults = b.faults; lost = b.lost } };
}

impl<R: Files + Drop> DiskBox<R> {
    /// The files of this runtime, with no failure counted yet.
    pub fn new(rt: R) -> DiskBox<R>
        ensures { result ≡ record { asked = []; faults = 0; lost = 0 } }
    {
        DiskBox {
            rt,
            asked: Calls::new(),
            faults: 0,
            lost: 0,
        }
    }
}

impl<R: Files + Drop> FileBox for DiskBox<R> {
    ghost held = { λ _. None };

    ghost asked = { λ b. b.asked };

    ghost faults = { λ b. b.faults };

    ghost lost = { λ b. b.lost };

    ghost serves = { λ _ _ _. ⊥ };

    /// Absent is a file that the system does not find. Every other error of opening or reading is a
    /// failure, which is counted.
    fn fetch(&mut self, alloc: Global, name: &str, limit: u64) -> Result<Fetched, FetchFault>
        ensures reads { ReadsAlone (λ _. None) (λ b. b.lost) (λ _ _ _. ⊥) self.old self.new }
        ensures asks { self.new.asked ≡ self.old.asked ++ file_call Fetch name.now (is_failed result) ∷ [] }
        ensures cause { FetchHasCause self.old.faults self.new.faults result }
        ensures within { IfOk result (IsWithinLimit limit) }
        ensures counts { self.new.faults ≡ counted (is_failed result) self.old.faults }
    {
        let answer = read_opened(alloc, fs::open(&self.rt, name), limit);
        self.asked = self.asked.with(&NewCall::Fetch(name, has_failed(&answer)));
        told_fetch(answer, &mut self.faults)
    }

    /// Whether std's `exists` finds the file, which follows links. Every error but that nothing is
    /// found is a failure, which is counted.
    fn has(&mut self, name: &str) -> Result<bool, Failed>
        ensures reads { ReadsAlone (λ _. None) (λ b. b.lost) (λ _ _ _. ⊥) self.old self.new }
        ensures asks { self.new.asked ≡ self.old.asked ++ file_call Has name.now (is_err result) ∷ [] }
        ensures cause { HasCause self.old.faults self.new.faults result }
        ensures counts { self.new.faults ≡ counted (is_err result) self.old.faults }
    {
        let answer = answer_of(fs::exists(&self.rt, name));
        self.asked = self.asked.with(&NewCall::Has(name, answer.is_err()));
        told(answer, &mut self.faults)
    }

    /// Makes the file, or empties it where it is there already, and writes the bytes. Every error
    /// is a failure, which is counted.
    fn store(&mut self, name: &str, bytes: &[u8]) -> Result<(), Failed>
        ensures asks { self.new.asked ≡ self.old.asked ++ file_call Store name.now (is_err result) ∷ [] }
        ensures faults_stay { self.new.faults ≡ self.old.faults }
        ensures cause { HasCause self.old.lost self.new.lost result }
        ensures counts { self.new.lost ≡ counted (is_err result) self.old.lost }
    {
        let answer = write_opened(fs::create(&self.rt, name), bytes);
        self.asked = self.asked.with(&NewCall::Store(name, answer.is_err()));
        told(answer, &mut self.lost)
    }
}

// Whether a fetch answers that the box failed, which want of memory is not.
fn has_failed(answer: &Result<Fetched, FetchFault>) -> bool
    ensures { result ≡ is_failed answer.now }
{
    match answer {
        Err(FetchFault::Failed) => true,
        Ok(_) | Err(FetchFault::Memory) => false,
    }
}

// A look or a store that is answered, whose failure is counted.
fn told<T>(answer: Result<T, Failed>, count: &mut u64) -> Result<T, Failed>
    ensures same { result ≡ answer }
    ensures cause { HasCause count.old count.new result }
    ensures counts { count.new ≡ counted (is_err result) count.old }
{
    match answer {
        Ok(found) => Ok(found),
        Err(_) => Err(count_failure(count)),
    }
}

// A fetch that is answered, whose failure is counted.
fn told_fetch(answer: Result<Fetched, FetchFault>, count: &mut u64) -> Result<Fetched, FetchFault>
    ensures same { result ≡ answer }
    ensures cause { FetchHasCause count.old count.new result }
    ensures counts { count.new ≡ counted (is_failed result) count.old }
{
    match answer {
        Err(FetchFault::Failed) => Err(FetchFault::from(count_failure(count))),
        Err(FetchFault::Memory) => Err(FetchFault::Memory),
        Ok(found) => Ok(found),
    }
}
