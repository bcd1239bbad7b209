//! A console, as a trait, in memory and over the standard output.

ghost use Rattle.std.specs.Prelude.{ℕ, List, Option, Some, [], ◌≡◌, ◌≤◌, ◌<◌, ◌+◌, ◌-◌, ◌↔◌, length, take, OnOk, OnErr, IfOk, IsOk, IsErr, is_err, None};
ghost use Rattle.std.specs.Io.KnownBytes.{Appends};
ghost use Rattle.outside.specs.Causes.{HasCause, counted};
ghost use Rattle.outside.specs.Pieces.{SaysPiece};

use crate::files::{Failed, count_failure};
use crate::stream::{Sink, write_whole};
use crate::system::Writing;
use ctl_base::Memory;
use std::alloc::Global;
use std::io;
use std::marker::Model;

/// Where lines are said.
pub trait Console {
    /// The bytes so far, where the console tells them.
    ghost said: { Self → Option (List ℕ) };

    /// How often `say` has failed. It never falls, and stops at 2^64 - 1.
    ghost failures: { Self → ℕ };

    /// No call fails from here on, where at most so many bytes are said in all.
    ghost hears: { Self → ℕ → Type 0 };

    /// Says the piece. After `Failed` nothing or a prefix of it is said.
    fn say(&mut self, piece: &[u8]) -> Result<(), Failed>
        ensures cause { HasCause (failures self.old) (failures self.new) result }
        ensures says { SaysPiece (said self.old) (said self.new) piece.now result }
        ensures heard { (n : ℕ) → hears self.old n → length piece.now ≤ n → IsOk result × hears self.new (n - length piece.now) };
}

/// A console that keeps what is said, in memory that it took at the start.
#[derive(Drop)]
pub struct MemConsole {
    bytes: Vec<u8>,
    room: u32,
    failures: u64,
}

impl Model for MemConsole {
    ghost use Rattle.std.specs.Prelude.{◌≤◌, vec_len, vec_capacity};
    ghost use Rattle.outside.specs.MemConsole.{ConsoleState};

    ghost Value = { ConsoleState };

    ghost view = { λ c. record { said = c.bytes.items; room = c.room; failures = c.failures } };

    ghost invariant = { λ c. (vec_len c.bytes ≤ c.room) × (c.room ≤ vec_capacity c.bytes) };
}

impl MemConsole {
    /// A console with room for so many bytes, on which nothing is said yet.
    pub fn new(alloc: Global, room: u32) -> Result<MemConsole, Memory>
        ensures { IfOk result (λ c. c ≡ record { said = []; room = room; failures = 0 }) }
    {
        Ok(MemConsole {
            bytes: Vec::with_capacity(alloc, room as usize)?,
            room,
            failures: 0,
        })
    }

    /// What was said.
    pub fn text(&self) -> &[u8]
        ensures { result.now ≡ self.now.said }
    {
        self.bytes.as_slice()
    }
}

impl Console for MemConsole {
    ghost use Rattle.outside.specs.MemConsole.{Hears, spoken};

    ghost said = { λ c. Some c.said };

    ghost failures = { λ c. c.failures };

    ghost hears = { Hears };

    /// Fails exactly where what was said and the piece together are longer than the room, and then
    /// nothing of the piece is said. Takes no memory.
    fn say(&mut self, piece: &[u8]) -> Result<(), Failed>
        ensures cause { HasCause self.old.failures self.new.failures result }
        ensures says { SaysPiece (Some self.old.said) (Some self.new.said) piece.now result }
        ensures heard { (n : ℕ) → Hears self.old n → length piece.now ≤ n → IsOk result × Hears self.new (n - length piece.now) }
        ensures after { self.new ≡ spoken self.old piece.now }
        ensures fails { IsErr result ↔ (self.old.room < length self.old.said + length piece.now) }
    {
        if piece.len() > self.room as usize - self.bytes.len() {
            return Err(count_failure(&mut self.failures));
        }
        match self.bytes.extend_from_slice(piece) {
            Ok(()) => Ok(()),
            Err(_) => unreachable!(),
        }
    }
}

/// The standard output. It tells nothing of what it shows. Where a piece failed, nothing is written any more.
#[derive(Drop)]
pub struct OutConsole<R: Print + Drop> {
    rt: R,
    failures: u64,
}

impl<R: Print + Drop> Model for OutConsole<R> {
    ghost use Rattle.std.specs.Prelude.{ℕ};

    ghost Value = { ℕ };

    ghost view = { λ c. c.failures };
}

impl<R: Print + Drop> OutConsole<R> {
    /// The standard output of this runtime, with no failure counted yet.
    pub fn new(rt: R) -> OutConsole<R>
        ensures { result ≡ 0 }
    {
        OutConsole { rt, failures: 0 }
    }
}

impl<R: Print + Drop> Console for OutConsole<R> {
    ghost said = { λ _. None };

    ghost failures = { λ c. c };

    ghost hears = { λ _ _. ⊥ };

    /// Writes the whole piece. Every error is a failure, which is counted, and after one every call fails.
    fn say(&mut self, piece: &[u8]) -> Result<(), Failed>
        ensures cause { HasCause self.old self.new result }
        ensures counts { self.new ≡ counted (is_err result) self.old }
        ensures shut { 0 < self.old → IsErr result }
    {
        say_to(
            &mut Writing::new(io::writer(&self.rt)),
            &mut self.failures,
            piece,
        )
    }
}

// Writes the whole piece to a sink where so many pieces failed. After a failure it is not written to again.
fn say_to<S: Sink>(sink: &mut S, failures: &mut u64, piece: &[u8]) -> Result<(), Failed>
    ensures cause { HasCause failures.old failures.new result }
    ensures counts { failures.new ≡ counted (is_err result) failures.old }
    ensures shut { 0 < failures.old → IsErr result × (sink.new ≡ sink.old) }
    ensures whole { OnOk result (Appends (S.written sink.old) (S.written sink.new) piece.now) }
    ensures torn { OnErr result ((n : ℕ) × Appends (S.written sink.old) (S.written sink.new) (take n piece.now)) }
{
    if *failures > 0 {
        return Err(count_failure(failures));
    }
    match write_whole(sink, piece) {
        Ok(()) => Ok(()),
        Err(_) => Err(count_failure(failures)),
    }
}
