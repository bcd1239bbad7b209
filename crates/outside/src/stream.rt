//! Whole reads of what gives bytes, and whole writes to what takes them.

ghost use Rattle.std.specs.Prelude.{ℕ, List, Option, ◌≡◌, ◌≤◌, ◌<◌, ◌+◌, ◌++◌, length, take, IfOk, IfSome, OnOk, OnErr, Some};
ghost use Rattle.std.specs.Io.{ReadsAtMost, WritesAtMost};
ghost use Rattle.std.specs.Io.KnownBytes.{Appends, Consumes, IsAtEnd, ReadConsumes, WriteAppends};
ghost use Rattle.outside.specs.Causes.{HasCause};
ghost use Rattle.outside.specs.Files.{FetchHasCause, IsWithinLimit, fetched};

use crate::files::{Failed, FetchFault, Fetched};
use ctl_base::{ByteText, Memory};
use std::alloc::Global;

/// What gives bytes, and counts how often it failed.
pub trait Source {
    /// The bytes that it will give from here on, where it tells them.
    ghost left: { Self → Option (List ℕ) };

    ghost failures: { Self → ℕ };

    /// Puts the next bytes at the front of the piece, and answers how many. None are the end.
    fn give(&mut self, piece: &mut [u8]) -> Result<usize, Failed>
        ensures cause { HasCause (failures self.old) (failures self.new) result }
        ensures bound { ReadsAtMost result piece.new }
        ensures bytes { ReadConsumes (left self.old) (left self.new) result piece.new };
}

/// What takes bytes, and counts how often it failed.
pub trait Sink {
    /// The bytes that it took, where it tells them.
    ghost written: { Self → Option (List ℕ) };

    ghost failures: { Self → ℕ };

    /// Takes some of the bytes from the front on, and answers how many. To take none of some is a failure.
    fn take(&mut self, bytes: &[u8]) -> Result<usize, Failed>
        ensures cause { HasCause (failures self.old) (failures self.new) result }
        ensures bound { WritesAtMost result bytes.now }
        ensures some { IfOk result (λ count. 0 < length bytes.now → 0 < count) }
        ensures bytes { WriteAppends (written self.old) (written self.new) result bytes.now };
}

// The most bytes that a file is asked for at once.
const PIECE: usize = 65_536;

/// Reads to the end, but no further than one byte past the limit. Fails exactly where the source did.
pub fn read_up_to<S: Source>(
    alloc: Global,
    source: &mut S,
    limit: u64,
) -> Result<Fetched, FetchFault>
    ensures cause { FetchHasCause (S.failures source.old) (S.failures source.new) result }
    ensures within { IfOk result (IsWithinLimit limit) }
    ensures whole { IfOk result (λ got. IfSome (S.left source.old) (λ bytes. got ≡ fetched (Some bytes) limit)) }
    ensures stops { (taken : List ℕ) × Consumes (S.left source.old) (S.left source.new) taken × (length taken ≤ limit + 1) }
{
    let mut piece = new_piece(alloc)?;
    read_pieces(alloc, source, &mut piece, limit)
}

fn new_piece(alloc: Global) -> Result<Vec<u8>, Memory>
    ensures { IfOk result (λ v. length v.items ≡ 65536) }
{
    Ok(vec![in alloc; 0u8; PIECE]?)
}

// The same, by reads into the piece.
fn read_pieces<S: Source>(
    alloc: Global,
    source: &mut S,
    piece: &mut [u8],
    limit: u64,
) -> Result<Fetched, FetchFault>
    requires { 0 < length piece.old }
    ensures cause { FetchHasCause (S.failures source.old) (S.failures source.new) result }
    ensures within { IfOk result (IsWithinLimit limit) }
    ensures whole { IfOk result (λ got. IfSome (S.left source.old) (λ bytes. got ≡ fetched (Some bytes) limit)) }
    ensures stops { (taken : List ℕ) × Consumes (S.left source.old) (S.left source.new) taken × (length taken ≤ limit + 1) }
{
    let mut bytes = Vec::new(alloc);
    'reads: loop {
        let left = limit - bytes.len() as u64;
        let most = left.saturating_add(1).min(piece.len() as u64) as usize;
        let count = read_piece(source, &mut piece[..most], &mut bytes)?;
        if count == 0 {
            return Ok(Fetched::Bytes(ByteText::from_vec(bytes)));
        }
        if bytes.len() as u64 > limit {
            return Ok(Fetched::TooLong { limit });
        }
    }
}

// One read into the piece, whose bytes are then put behind those that were read before.
fn read_piece<S: Source>(
    source: &mut S,
    piece: &mut [u8],
    bytes: &mut Vec<u8>,
) -> Result<usize, FetchFault>
    ensures cause { FetchHasCause (S.failures source.old) (S.failures source.new) result }
    ensures fits { IfOk result (λ count. count ≤ length piece.new) }
    ensures grown { IfOk result (λ count. bytes.new.items ≡ bytes.old.items ++ take count piece.new) }
    ensures took { IfOk result (λ count. Consumes (S.left source.old) (S.left source.new) (take count piece.new)) }
    ensures end { IfOk result (λ count. count ≡ 0 → 0 < length piece.new → IsAtEnd (S.left source.new)) }
    ensures stopped { OnErr result ((n : ℕ) × (n ≤ length piece.new) × Consumes (S.left source.old) (S.left source.new) (take n piece.new)) }
{
    let count = source.give(piece)?;
    append(bytes, &piece[..count])?;
    Ok(count)
}

fn append(bytes: &mut Vec<u8>, piece: &[u8]) -> Result<(), Memory>
    ensures ok { OnOk result (bytes.new.items ≡ bytes.old.items ++ piece.now) }
    ensures err { OnErr result (bytes.new.items ≡ bytes.old.items) }
{
    bytes.extend_from_slice(piece)?;
    Ok(())
}

/// Writes all of the bytes, or a prefix of them. Fails exactly where the sink did.
pub fn write_whole<S: Sink>(sink: &mut S, bytes: &[u8]) -> Result<(), Failed>
    ensures cause { HasCause (S.failures sink.old) (S.failures sink.new) result }
    ensures whole { OnOk result (Appends (S.written sink.old) (S.written sink.new) bytes.now) }
    ensures torn { OnErr result ((n : ℕ) × Appends (S.written sink.old) (S.written sink.new) (take n bytes.now)) }
{
    let mut done = 0;
    'writes: while done < bytes.len() {
        done += sink.take(&bytes[done..])?;
    }
    Ok(())
}
