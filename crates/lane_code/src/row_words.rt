//! The words and the open sizes that a function of the library takes.

ghost use Rattle.std.specs.Prelude.{◌≡◌, ◌≤◌, ◌*◌, ◌^◌, true, false, not, length, sum_by};
ghost use Rattle.std.specs.List.{list_all, filter};
ghost use Rattle.ctl_stdlib.specs.Rows.{row};
ghost use Rattle.ctl_stdlib.specs.Shapes.{is_table, stated_words, elements, table_words, input_words, output_words, result_words, filled_words, open_sizes};
ghost use Rattle.lane_code.specs.Instructions.{inputs};
ghost use Rattle.lane_code.specs.Valid.{is_size, argument_words, arguments_inside, fits_row};

use crate::instr::Slot;
use crate::valid::{Numbers, is_inside};
use ctl_base::limits::{ARRAY_SIZE, SCALARS};
use ctl_stdlib::{LibraryId, Param, RowShape, params, result};

// The words of a shape, for one element of its open sizes.
fn stated_words(shape: RowShape) -> u64
    ensures value { result ≡ stated_words shape }
    ensures few { result ≤ 16 }
{
    match shape {
        RowShape::Float3 | RowShape::Lattice => 3,
        RowShape::Float33 => 9,
        RowShape::Float44 => 16,
        RowShape::Pairs => 2,
        RowShape::Chromaticities => 8,
        _ => 1,
    }
}

pub fn is_table(shape: RowShape) -> bool
    ensures { result ≡ is_table shape }
{
    shape.open_sizes() != 0
}

fn is_size(n: u32) -> bool
    ensures { result ≡ is_size n }
{
    1 <= n && n <= ARRAY_SIZE
}

// The words that a call fills.
pub fn filled_words(id: LibraryId) -> u64
    ensures value { result ≡ filled_words (row id) }
    ensures few { result ≤ 16 }
{
    match id {
        LibraryId::Lookup3DF => 3,
        LibraryId::Assert => 0,
        _ => match result(id) {
            Some(shape) => stated_words(shape),
            None => 0,
        },
    }
}

// How many open sizes a function has.
fn open_sizes(id: LibraryId) -> usize
    ensures value { result ≡ sum_by (λ p. open_sizes p.shape) (row id).params }
    ensures few { result ≤ 3 }
{
    match id {
        LibraryId::Lookup1D | LibraryId::LookupCubic1D => 1,
        LibraryId::Interpolate1D | LibraryId::InterpolateCubic1D => 1,
        LibraryId::Lookup3DF3 | LibraryId::Lookup3DF => 3,
        _ => 0,
    }
}

// The words of the table for one element of its open sizes.
fn element_words(id: LibraryId, ghost_sizes: &[u32]) -> u64
    ensures value { sum_by (table_words ghost_sizes.now) (row id).params ≡ elements ghost_sizes.now * result }
    ensures few { result ≤ 3 }
{
    match id {
        LibraryId::Lookup1D | LibraryId::LookupCubic1D => 1,
        LibraryId::Interpolate1D | LibraryId::InterpolateCubic1D => 2,
        LibraryId::Lookup3DF3 | LibraryId::Lookup3DF => 3,
        _ => 0,
    }
}

// How many inputs a function has.
fn input_count(id: LibraryId) -> usize
    ensures { result ≡ length (inputs (row id)) }
{
    params(id).iter().filter(|p| !p.is_output).count()
}

fn times(n: u32, words: u64) -> u64
    requires size { n ≤ 2 ^ 16 }
    requires few { words ≤ 2 ^ 32 }
    ensures value { result ≡ n * words }
    ensures most { result ≤ 2 ^ 16 * words }
{
    n as u64 * words
}

fn all_sizes(sizes: &[u32]) -> bool
    ensures { result ≡ list_all (λ n. is_size n) sizes.now }
{
    sizes.iter().all(|n| is_size(*n))
}

// The product of at most three sizes.
fn elements(sizes: &[u32]) -> u64
    requires few { length sizes.now ≤ 3 }
    requires sizes { list_all (λ n. is_size n) sizes.now ≡ true }
    ensures value { result ≡ elements sizes.now }
    ensures most { result ≤ 2 ^ 48 }
{
    match sizes {
        [a] => *a as u64,
        [a, b] => times(*a, *b as u64),
        [a, b, c] => times(*a, times(*b, *c as u64)),
        _ => 1,
    }
}

pub fn fits_row(id: LibraryId, sizes: &[u32], args: &[Slot]) -> bool
    ensures { result ≡ fits_row (row id) sizes.now args.now }
{
    sizes.len() == open_sizes(id)
        && all_sizes(sizes)
        && elements(sizes) * element_words(id, sizes) <= SCALARS as u64
        && args.len() == input_count(id)
}

// The words of an argument.
pub fn argument_words(sizes: &[u32], p: Param) -> u64
    requires few { length sizes.now ≤ 3 }
    requires sizes { list_all (λ n. is_size n) sizes.now ≡ true }
    requires input { p.is_output ≡ false }
    ensures value { result ≡ argument_words sizes.now p }
    ensures most { result ≤ 2 ^ 56 }
{
    if is_table(p.shape) {
        elements(sizes) * stated_words(p.shape)
    } else {
        stated_words(p.shape)
    }
}

// Whether each argument has all its slots.
pub fn arguments_inside(n: Numbers, sizes: &[u32], params: &[Param], args: &[Slot]) -> bool
    requires few { length sizes.now ≤ 3 }
    requires sizes { list_all (λ n. is_size n) sizes.now ≡ true }
    ensures { result ≡ arguments_inside n sizes.now (filter (λ p. not p.is_output) params.now) args.now }
{
    let Some((p, later)) = params.split_first() else {
        return true;
    };
    if p.is_output {
        return arguments_inside(n, sizes, later, args);
    }
    let Some((s, more)) = args.split_first() else {
        return true;
    };
    is_inside(n, *s, argument_words(sizes, *p)) && arguments_inside(n, sizes, later, more)
}
