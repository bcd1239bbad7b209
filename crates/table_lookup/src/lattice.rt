//! Tables of triples in three indices.

ghost use Rattle.std.specs.Prelude.{◌≡◌, ℕ, ℤ, pos, ◌+◌, ◌*◌, ◌<◌, ◌≤◌, length};
ghost use Rattle.table_lookup.specs.Tables.{lookup3, channel, along_last, along_middle, along_first};
ghost use Rattle.table_lookup.specs.Means.{IsSegment, segment_of};

use crate::axis::{Segment, axis, mix};
use ctl_base::limits::{ARRAY_SIZE, SCALARS};
use fix_num::{FRACTION, Fix};

/// The three numbers at the point p of a table of n0 by n1 by n2 triples, which are spread evenly
/// from lo to hi in each index. The three words of an entry stand side by side, and the entries
/// in the order of their indices, the last one fastest. `out` is overwritten.
pub fn lookup3(
    t: &[Fix],
    n0: u32,
    n1: u32,
    n2: u32,
    lo: &[Fix],
    hi: &[Fix],
    p: &[Fix],
    out: &mut [Fix],
)
    requires first { (1 ≤ n0) × (n0 ≤ ARRAY_SIZE) }
    requires middle { (1 ≤ n1) × (n1 ≤ ARRAY_SIZE) }
    requires last { (1 ≤ n2) × (n2 ≤ ARRAY_SIZE) }
    requires size { length t.now ≡ 3 * n0 * n1 * n2 }
    requires few { length t.now ≤ SCALARS }
    requires low { length lo.now ≡ 3 }
    requires high { length hi.now ≡ 3 }
    requires point { length p.now ≡ 3 }
    requires room { length out.old ≡ 3 }
    ensures { out.new ≡ lookup3 FRACTION n0 n1 n2 t.now lo.now hi.now p.now }
{
    let grid = Grid {
        first: n0 as usize,
        middle: n1 as usize,
        last: n2 as usize,
    };
    let first = axis(grid.first, lo[0], hi[0], p[0]);
    let middle = axis(grid.middle, lo[1], hi[1], p[1]);
    let last = axis(grid.last, lo[2], hi[2], p[2]);
    out.copy_from_slice(&[
        along_first(t, &grid, &first, &middle, &last, 0),
        along_first(t, &grid, &first, &middle, &last, 1),
        along_first(t, &grid, &first, &middle, &last, 2),
    ]);
}

// How many entries there are in each index.
#[derive(Drop)]
struct Grid {
    first: usize,
    middle: usize,
    last: usize,
}

// One channel between the two planes of a segment in the first index.
#[tactic(auto, unfolding(crate::specs::Tables::along_first))]
fn along_first(
    t: &[Fix],
    grid: &Grid,
    first: &Segment,
    middle: &Segment,
    last: &Segment,
    c: usize,
) -> Fix
    requires size { length t.now ≡ 3 * grid.now.first * grid.now.middle * grid.now.last }
    requires few { length t.now ≤ SCALARS }
    requires on_first { IsSegment FRACTION grid.now.first (segment_of first.now) }
    requires on_middle { IsSegment FRACTION grid.now.middle (segment_of middle.now) }
    requires on_last { IsSegment FRACTION grid.now.last (segment_of last.now) }
    requires channel { c < 3 }
    ensures { result ≡ along_first FRACTION (channel grid.now.middle grid.now.last t.now c) (segment_of first.now) (segment_of middle.now) (segment_of last.now) }
{
    let low = along_middle(t, grid, middle, last, first.low, c);
    let high = along_middle(t, grid, middle, last, first.high, c);
    mix(low, high, first.part)
}

// One channel between the two rows of a segment in the middle index.
#[tactic(auto, unfolding(crate::specs::Tables::along_middle))]
fn along_middle(t: &[Fix], grid: &Grid, middle: &Segment, last: &Segment, i: usize, c: usize) -> Fix
    requires size { length t.now ≡ 3 * grid.now.first * grid.now.middle * grid.now.last }
    requires few { length t.now ≤ SCALARS }
    requires on_middle { IsSegment FRACTION grid.now.middle (segment_of middle.now) }
    requires on_last { IsSegment FRACTION grid.now.last (segment_of last.now) }
    requires plane { i < grid.now.first }
    requires channel { c < 3 }
    ensures { result ≡ along_middle FRACTION (channel grid.now.middle grid.now.last t.now c) (segment_of middle.now) (segment_of last.now) i }
{
    let low = along_last(t, grid, last, i, middle.low, c);
    let high = along_last(t, grid, last, i, middle.high, c);
    mix(low, high, middle.part)
}

// One channel between the two entries of a segment in the last index.
#[tactic(auto, unfolding(crate::specs::Tables::along_last))]
fn along_last(t: &[Fix], grid: &Grid, last: &Segment, i: usize, j: usize, c: usize) -> Fix
    requires size { length t.now ≡ 3 * grid.now.first * grid.now.middle * grid.now.last }
    requires few { length t.now ≤ SCALARS }
    requires on_last { IsSegment FRACTION grid.now.last (segment_of last.now) }
    requires plane { i < grid.now.first }
    requires row { j < grid.now.middle }
    requires channel { c < 3 }
    ensures { result ≡ along_last FRACTION (channel grid.now.middle grid.now.last t.now c) (segment_of last.now) i j }
{
    let low = word(t, grid, i, j, last.low, c);
    let high = word(t, grid, i, j, last.high, c);
    mix(low, high, last.part)
}

// One channel of an entry.
fn word(t: &[Fix], grid: &Grid, i: usize, j: usize, k: usize, c: usize) -> Fix
    requires size { length t.now ≡ 3 * grid.now.first * grid.now.middle * grid.now.last }
    requires few { length t.now ≤ SCALARS }
    requires plane { i < grid.now.first }
    requires row { j < grid.now.middle }
    requires column { k < grid.now.last }
    requires channel { c < 3 }
    ensures { result ≡ channel grid.now.middle grid.now.last t.now c i j k }
{
    t[3 * ((i * grid.middle + j) * grid.last + k) + c]
}
