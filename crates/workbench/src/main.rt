//! `workbench WORK FILE TIMES`: does one named piece of work over a file a number of times, and says a checksum.
//! It is for timing from outside.
//!
//! The works: `copy` copies the file's bytes, `dpx` reads the file as an image and writes it again, `lex` cuts it into
//! tokens, `parse` reads it as a module, and `count` counts its tokens. `pow`, `log2` and `exp2` make a thousand calls of
//! that function each time, and `called` makes those of `pow` by its name in the language's library; they use no file.
//! `transforms`, `tones` and `gammas` run one of the three programs of the built-in chain, written out by hand, on a
//! thousand pixels each time. `range`, `clip`, `sum`, `bins` and `map` show a line of 1,920 pixels to that watcher.
#![tactic(auto)]

use anyhow::{Result, bail};
use ctl_base::{ByteText, TextArg};
use outside::{DiskBox, Fetched, FileBox};
use std::alloc::Global;
use std::env;
use std::rt::{Env, Files};

mod pixels;
mod powers;
mod texts;
mod watchers;

/// The most bytes of a file.
const MOST_BYTES: u64 = 1 << 30;

fn main(rt: HostRuntime) -> Result<()> {
    let words = words(&rt)?;
    let [work, file, times] = words.as_slice() else {
        bail!("workbench WORK FILE TIMES");
    };
    let times = times.as_str().parse::<u32>()?;
    let mut files = DiskBox::new(rt.clone()?);
    let Ok(Fetched::Bytes(bytes)) = files.fetch(rt.alloc(), file.as_str(), MOST_BYTES) else {
        bail!("the file cannot be read");
    };
    let sum = sum_of(rt.alloc(), work.as_str(), bytes.as_slice(), times)?;
    println!(&rt; "{sum:016x}")?;
    Ok(())
}

// The checksum of the named work.
fn sum_of(alloc: Global, work: &str, file: &[u8], times: u32) -> Result<u64> {
    match work {
        "copy" => copy(alloc, file, times),
        "dpx" => dpx(alloc, file, times),
        "lex" => texts::tokens(alloc, file, times),
        "parse" => texts::modules(alloc, file, times),
        "count" => texts::count(alloc, file, times),
        "pow" => Ok(powers::powers(times)),
        "called" => Ok(powers::called_powers(times)),
        "log2" => Ok(powers::logarithms(times)),
        "exp2" => Ok(powers::powers_of_two(times)),
        "transforms" => Ok(pixels::transforms(times)),
        "tones" => Ok(pixels::tones(times)),
        "gammas" => Ok(pixels::gammas(times)),
        "range" | "clip" | "sum" | "bins" | "map" => watchers::watched(alloc, work, times),
        _ => bail!("no such work"),
    }
}

fn words<R: Env + AllocGlobal>(rt: &R) -> Result<Vec<TextArg>> {
    let mut words = Vec::new(rt.alloc());
    for word in env::args(rt)?.skip(1) {
        match TextArg::new(rt.alloc(), word.as_str()) {
            Ok(word) => words.push(word)?,
            Err(_) => bail!("out of memory"),
        }
    }
    Ok(words)
}

// Copies the bytes, so many times.
fn copy(alloc: Global, file: &[u8], times: u32) -> Result<u64> {
    let mut sum = 0u64;
    for _ in 0..times {
        match ByteText::new(alloc, file) {
            Ok(copied) => sum = sum.wrapping_add(checksum(copied.as_slice())),
            Err(_) => bail!("out of memory"),
        }
    }
    Ok(sum)
}

// Reads the file as an image and writes it, so many times.
fn dpx(alloc: Global, file: &[u8], times: u32) -> Result<u64> {
    let mut sum = 0u64;
    for _ in 0..times {
        let Ok(image) = dpx_file::read(alloc, file) else {
            bail!("no image, or out of memory");
        };
        match dpx_file::write(alloc, &image, image.depth()) {
            Ok(written) => sum = sum.wrapping_add(checksum(written.as_slice())),
            Err(_) => bail!("out of memory"),
        }
    }
    Ok(sum)
}

fn checksum(bytes: &[u8]) -> u64 {
    bytes.iter().fold(
        0,
        |sum: u64, b| sum.wrapping_mul(31).wrapping_add(u64::from(*b)),
    )
}
