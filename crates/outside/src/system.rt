//! The readers and writers of the system as sources and sinks, and what each of their answers comes to.

ghost use Rattle.std.specs.Prelude.{ℕ, ◌≡◌, ◌≢◌, Ok, Err, IfOk, IfErr, IfSome, IsErr, Some};
ghost use Rattle.std.specs.IoError.{error_kind};
ghost use Rattle.std.specs.Io.{ReadsAtMost, WritesAtMost};
ghost use Rattle.std.specs.Io.KnownBytes.{Appends, ReadConsumes, WriteAppends};
ghost use Rattle.outside.specs.Causes.{HasCause};
ghost use Rattle.outside.specs.Files.{IsWithinLimit, fetched};

use crate::files::{Failed, FetchFault, Fetched, count_failure};
use crate::stream::{Sink, Source, read_up_to, write_whole};
use std::alloc::Global;
use std::io;
use std::io::{ErrorKind, Read, Write};

/// A reader, and how often a read has failed.
#[derive(Drop)]
pub struct Reading<R: Read + Drop> {
    reader: R,
    failures: u64,
}

/// A writer, and how often a write has failed.
#[derive(Drop)]
pub struct Writing<W: Write + Drop> {
    writer: W,
    failures: u64,
}

impl<R: Read + Drop> Reading<R> {
    pub fn new(reader: R) -> Reading<R>
        ensures { result ≡ record { reader = reader; failures = 0 } }
    {
        Reading {
            reader,
            failures: 0,
        }
    }
}

impl<W: Write + Drop> Writing<W> {
    pub fn new(writer: W) -> Writing<W>
        ensures { result ≡ record { writer = writer; failures = 0 } }
    {
        Writing {
            writer,
            failures: 0,
        }
    }
}

// What one read or write comes to.
enum Try {
    Count(usize),
    Again,
    Failed,
}

// Where it was interrupted it is tried again. Every other error is a failure.
fn try_of(answer: io::Result<usize>) -> Try
    ensures count { IfOk answer (λ count. result ≡ Try.Count count) }
    ensures again { IfErr answer (λ e. error_kind e ≡ ErrorKind.Interrupted → result ≡ Try.Again) }
    ensures failed { IfErr answer (λ e. error_kind e ≢ ErrorKind.Interrupted → result ≡ Try.Failed) }
{
    match answer {
        Ok(count) => Try::Count(count),
        Err(e) if e.kind() == ErrorKind::Interrupted => Try::Again,
        Err(_) => Try::Failed,
    }
}

impl<R: Read + Drop> Source for Reading<R> {
    ghost left = { λ s. R.remaining s.reader };

    ghost failures = { λ s. s.failures };

    fn give(&mut self, piece: &mut [u8]) -> Result<usize, Failed> {
        'tries: for _ in 0..u64::MAX {
            match try_of(self.reader.read(piece)) {
                Try::Count(count) => return Ok(count),
                Try::Again => {}
                Try::Failed => return Err(count_failure(&mut self.failures)),
            }
        }
        Err(count_failure(&mut self.failures))
    }
}

impl<W: Write + Drop> Sink for Writing<W> {
    ghost written = { λ s. W.contents s.writer };

    ghost failures = { λ s. s.failures };

    fn take(&mut self, bytes: &[u8]) -> Result<usize, Failed> {
        'tries: for _ in 0..u64::MAX {
            match try_of(self.writer.write(bytes)) {
                Try::Count(0) if !bytes.is_empty() => break 'tries,
                Try::Count(count) => return Ok(count),
                Try::Again => {}
                Try::Failed => break 'tries,
            }
        }
        Err(count_failure(&mut self.failures))
    }
}

// What a fetch answers where the file cannot be opened: a file that is not found is absent.
fn unopened(kind: ErrorKind) -> Result<Fetched, FetchFault>
    ensures absent { kind ≡ ErrorKind.NotFound → result ≡ Ok Fetched.Absent }
    ensures failed { kind ≢ ErrorKind.NotFound → result ≡ Err FetchFault.Failed }
{
    match kind {
        ErrorKind::NotFound => Ok(Fetched::Absent),
        _ => Err(FetchFault::Failed),
    }
}

/// What a fetch answers of a file that was opened, or not.
pub fn read_opened<R: Read + Drop>(
    alloc: Global,
    opened: io::Result<R>,
    limit: u64,
) -> Result<Fetched, FetchFault>
    ensures within { IfOk result (IsWithinLimit limit) }
    ensures whole { IfOk opened (λ file. IfOk result (λ got. IfSome (R.remaining file) (λ bytes. got ≡ fetched (Some bytes) limit))) }
    ensures absent { IfErr opened (λ e. error_kind e ≡ ErrorKind.NotFound → result ≡ Ok Fetched.Absent) }
    ensures failed { IfErr opened (λ e. error_kind e ≢ ErrorKind.NotFound → result ≡ Err FetchFault.Failed) }
{
    match opened {
        Ok(file) => read_up_to(alloc, &mut Reading::new(file), limit),
        Err(e) => unopened(e.kind()),
    }
}

/// What the system answers, where every error is a failure.
pub fn answer_of<T: Drop>(answer: io::Result<T>) -> Result<T, Failed>
    ensures ok { IfOk answer (λ x. result ≡ Ok x) }
    ensures err { IsErr answer → IsErr result }
{
    match answer {
        Ok(x) => Ok(x),
        Err(_) => Err(Failed),
    }
}

/// What a store answers of a file that was opened, or not.
pub fn write_opened<W: Write + Drop>(opened: io::Result<W>, bytes: &[u8]) -> Result<(), Failed>
    ensures { IsErr opened → IsErr result }
{
    write_whole(&mut Writing::new(answer_of(opened)?), bytes)
}
