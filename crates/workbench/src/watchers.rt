//! Watchers of lines, which are shown the same line again and again. No file is used.

ghost use Rattle.std.specs.Prelude.{◌≡◌, ◌%◌, length};
ghost use Rattle.line_watch.specs.Tally.{IsLine};

use anyhow::{Result, bail};
use line_watch::{BinArray, BinMap, ClipWatch, RangeWatch, SumWatch, Watcher};
use std::alloc::Global;

/// The codes of a line of 1,920 pixels.
const CODES: usize = 5760;

/// Shows a line of sixteen bits to a watcher of the named kind, so many times, and adds its numbers to a checksum.
pub(crate) fn watched(alloc: Global, kind: &str, times: u32) -> Result<u64> {
    let line = line();
    match kind {
        "range" => Ok(shown(RangeWatch::new(), &line, times)),
        "clip" => Ok(shown(ClipWatch::new(), &line, times)),
        "sum" => Ok(shown(SumWatch::new(), &line, times)),
        "bins" => Ok(shown(BinArray::new(), &line, times)),
        _ => match BinMap::new(alloc) {
            Ok(watch) => Ok(shown(watch, &line, times)),
            Err(_) => bail!("out of memory"),
        },
    }
}

fn line() -> [u16; CODES] {
    let mut line = [0u16; CODES];
    let mut seed = 1u16;
    for code in &mut line {
        seed = seed.wrapping_mul(25173).wrapping_add(13849);
        *code = seed;
    }
    line
}

fn shown<W: Watcher>(mut watch: W, line: &[u16; CODES], times: u32) -> u64 {
    for _ in 0..times {
        watch.show(16, line);
    }
    watch
        .report()
        .numbers
        .iter()
        .fold(0, |sum: u64, n| sum.wrapping_mul(31).wrapping_add(*n))
}
