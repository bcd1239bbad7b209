//! A system whose reads and writes are interrupted or fail as a script says.

ghost use Rattle.std.specs.Prelude.{◌≤◌, IfOk, IsErr};

use std::alloc::Allocator;
use std::cell::Cell;
use std::fmt::Display;
use std::fs::{Metadata, OpenFile, OpenOptions};
use std::io;
use std::io::{ErrorKind, Read, Seek, SeekFrom, Write};
use std::rt::Files;

/// What one read or write does.
#[derive(Clone, Copy)]
pub enum Turn {
    /// It gives or takes one byte.
    One,
    /// A signal comes before it.
    Interrupted,
    /// It fails.
    Broken,
    /// It gives or takes no byte.
    Nothing,
}

fn refused<T>(kind: ErrorKind) -> io::Result<T>
    ensures { IsErr result }
{
    Err(io::Error::from(kind))
}

// How many bytes a turn with room for so many gives or takes.
fn count(turn: Turn, room: usize) -> io::Result<usize>
    ensures { IfOk result (λ n. n ≤ room) }
{
    match turn {
        Turn::One => Ok(room.min(1)),
        Turn::Interrupted => refused(ErrorKind::Interrupted),
        Turn::Broken => refused(ErrorKind::StorageFull),
        Turn::Nothing => Ok(0),
    }
}

fn turn_at(script: &[Turn; 5], at: usize) -> Turn {
    script.get(at).copied().unwrap_or(Turn::Nothing)
}

/// A file that follows a script.
#[derive(Drop)]
pub struct FaultyFile {
    script: [Turn; 5],
    at: usize,
}

impl FaultyFile {
    fn next(&mut self) -> Turn {
        let turn = turn_at(&self.script, self.at);
        self.at = self.at.saturating_add(1);
        turn
    }
}

impl Read for FaultyFile {
    fn read(&mut self, buf: &mut [u8]) -> io::Result<usize> {
        let n = count(self.next(), buf.len())?;
        if let Some(first) = buf.first_mut() {
            *first = b'x';
        }
        Ok(n)
    }
}

impl Write for FaultyFile {
    fn write(&mut self, buf: &[u8]) -> io::Result<usize> {
        count(self.next(), buf.len())
    }

    fn flush(&mut self) -> io::Result<()> {
        Ok(())
    }
}

impl Seek for FaultyFile {
    fn seek(&mut self, _to: SeekFrom) -> io::Result<u64> {
        refused(ErrorKind::Unsupported)
    }
}

impl OpenFile for FaultyFile {
    fn metadata(&self) -> io::Result<Metadata> {
        refused(ErrorKind::Unsupported)
    }

    fn set_len(&self, _size: u64) -> io::Result<()> {
        refused(ErrorKind::Unsupported)
    }

    fn sync_all(&self) -> io::Result<()> {
        refused(ErrorKind::Unsupported)
    }

    fn sync_data(&self) -> io::Result<()> {
        refused(ErrorKind::Unsupported)
    }
}

/// Files whose names say what comes of them.
#[derive(Drop)]
pub struct FaultyFiles;

fn script_of(path: &str) -> io::Result<[Turn; 5]> {
    match path {
        "absent" => refused(ErrorKind::NotFound),
        "locked" => refused(ErrorKind::PermissionDenied),
        "interrupted" => Ok([
            Turn::One,
            Turn::Interrupted,
            Turn::One,
            Turn::Nothing,
            Turn::Broken,
        ]),
        _ => Ok([Turn::One, Turn::One, Turn::Broken, Turn::One, Turn::One]),
    }
}

impl Files for FaultyFiles {
    type File = FaultyFile;

    type Dir = FaultyFile;

    fn open_file(&self, _how: &OpenOptions, path: &str) -> io::Result<FaultyFile> {
        Ok(FaultyFile {
            script: script_of(path)?,
            at: 0,
        })
    }

    fn open_dir(&self, _path: &str) -> io::Result<FaultyFile> {
        refused(ErrorKind::Unsupported)
    }

    fn metadata(&self, path: &str) -> io::Result<Metadata> {
        script_of(path)?;
        Ok(Metadata::of_file(2))
    }

    fn symlink_metadata(&self, _path: &str) -> io::Result<Metadata> {
        refused(ErrorKind::Unsupported)
    }

    fn copy(&self, _from: &str, _to: &str) -> io::Result<u64> {
        refused(ErrorKind::Unsupported)
    }

    fn rename(&self, _from: &str, _to: &str) -> io::Result<()> {
        refused(ErrorKind::Unsupported)
    }

    fn remove_file(&self, _path: &str) -> io::Result<()> {
        refused(ErrorKind::Unsupported)
    }

    fn create_dir(&self, _path: &str) -> io::Result<()> {
        refused(ErrorKind::Unsupported)
    }

    fn remove_dir(&self, _path: &str) -> io::Result<()> {
        refused(ErrorKind::Unsupported)
    }

    fn remove_dir_all<B: Allocator>(&self, _alloc: B, _path: &str) -> io::Result<()> {
        refused(ErrorKind::Unsupported)
    }
}

/// An output that follows a script.
#[derive(Drop)]
pub struct FaultyOutput {
    script: [Turn; 5],
    at: Cell<usize>,
}

impl FaultyOutput {
    pub fn new(script: [Turn; 5]) -> FaultyOutput {
        FaultyOutput {
            script,
            at: Cell::new(0),
        }
    }
}

impl Print for FaultyOutput {
    fn print<D: Display + Drop>(&self, _value: D) -> io::Result<()> {
        refused(ErrorKind::Unsupported)
    }

    fn println<D: Display + Drop>(&self, _value: D) -> io::Result<()> {
        refused(ErrorKind::Unsupported)
    }

    fn write_all(&self, _bytes: &[u8]) -> io::Result<()> {
        refused(ErrorKind::Unsupported)
    }

    fn write_some(&self, bytes: &[u8]) -> io::Result<usize> {
        let turn = turn_at(&self.script, self.at.get());
        self.at.set(self.at.get().saturating_add(1));
        count(turn, bytes.len())
    }
}
