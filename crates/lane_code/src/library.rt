//! The library's functions on the words of one lane.

ghost use Rattle.std.specs.Prelude.{◌≡◌, ◌≤◌, ◌+◌, ◌^◌, ◌++◌, ℕ, ℤ, pos, true, false, not, length, IfOk};
ghost use Rattle.std.specs.List.{filter, list_all};
ghost use Rattle.fix_num.specs.declared.TheConstants.{FRACTION};
ghost use Rattle.ctl_stdlib.specs.Rows.{row};
ghost use Rattle.ctl_stdlib.specs.Shapes.{table_words, input_words, filled_words};
ghost use Rattle.lane_code.specs.Slots.{words_from, put_all, shifted, first_of};
ghost use Rattle.lane_code.specs.Instructions.{inputs, given, table_of, rest_of};
ghost use Rattle.lane_code.specs.LaneMeaning.{words_of, with_words};
ghost use Rattle.lane_code.specs.Valid.{is_inside, is_size, arguments_inside, fits_row};
ghost use Rattle.lane_code.specs.Calling.{counts, left_to_put};

use crate::instr::Slot;
use crate::lane::Lane;
use crate::row_words::{argument_words, filled_words, is_table};
use crate::valid::Numbers;
use crate::words::{put, shifted, word_in};
use ctl_base::Memory;
use ctl_stdlib::{LibraryId, Param, call, params};
use fix_num::Fix;
use std::alloc::Global;

// Reads so many words from a slot on.
fn read(n: Numbers, lane: &Lane, slot: Slot, count: u64, words: &mut Vec<Fix>) -> Result<(), Memory>
    requires inside { is_inside n slot count ≡ true }
    ensures { IfOk result (λ _. words.new.items ≡ words.old.items ++ words_from (words_of lane.now) slot count) }
{
    'each: for i in 0..count as u32 {
        words.push(word_in(lane, shifted(slot, i)))?;
    }
    Ok(())
}

// Reads the words of arguments: those of the table, or else of the others.
fn read_given(
    n: Numbers,
    lane: &Lane,
    table: bool,
    sizes: &[u32],
    params: &[Param],
    args: &[Slot],
    words: &mut Vec<Fix>,
) -> Result<(), Memory>
    requires few { length sizes.now ≤ 3 }
    requires sizes { list_all (λ n. is_size n) sizes.now ≡ true }
    requires inside { arguments_inside n sizes.now (filter (λ p. not p.is_output) params.now) args.now ≡ true }
    ensures { IfOk result (λ _. words.new.items ≡ words.old.items ++ given (words_of lane.now) (counts table sizes.now) (filter (λ p. not p.is_output) params.now) args.now) }
{
    let Some((p, later)) = params.split_first() else {
        return Ok(());
    };
    if p.is_output {
        read_given(n, lane, table, sizes, later, args, words)?;
        return Ok(());
    }
    let Some((s, more)) = args.split_first() else {
        return Ok(());
    };
    if is_table(p.shape) != table {
        read_given(n, lane, table, sizes, later, more, words)?;
        return Ok(());
    }
    read(n, lane, *s, argument_words(sizes, *p), words)?;
    read_given(n, lane, table, sizes, later, more, words)?;
    Ok(())
}

// Sets words from a slot on.
fn put_all(n: Numbers, lane: &mut Lane, dst: Slot, words: &[Fix])
    requires inside { is_inside n dst (length words.now) ≡ true }
    ensures { lane.new ≡ with_words (put_all dst words.now (words_of lane.old)) lane.old }
{
    'each: for i in 0..words.len() {
        put(lane, shifted(dst, i as u32), words[i]);
    }
}

/// Calls a function of the library, and sets its results. The answer is false, and nothing is set, where an assertion
/// is false.
pub fn call_library(
    alloc: Global,
    n: Numbers,
    lane: &mut Lane,
    id: LibraryId,
    sizes: &[u32],
    dst: Slot,
    args: &[Slot],
) -> Result<bool, Memory>
    requires fits { fits_row (row id) sizes.now args.now ≡ true }
    requires target { is_inside n dst (filled_words (row id)) ≡ true }
    requires inside { arguments_inside n sizes.now (inputs (row id)) args.now ≡ true }
    ensures answer { IfOk result (λ goes. goes ≡ (row id).answer (rest_of (words_of lane.old) (row id) args.now)) }
    ensures done { IfOk result (λ goes. goes ≡ true → lane.new ≡ with_words (put_all dst ((row id).value FRACTION sizes.now (table_of (words_of lane.old) (row id) sizes.now args.now) (rest_of (words_of lane.old) (row id) args.now)) (words_of lane.old)) lane.old) }
    ensures kept { IfOk result (λ goes. goes ≡ false → lane.new ≡ lane.old) }
{
    let mut table = Vec::new(alloc);
    read_given(n, lane, true, sizes, params(id), args, &mut table)?;
    let mut rest = Vec::new(alloc);
    read_given(n, lane, false, sizes, params(id), args, &mut rest)?;
    let mut out = [Fix::from_raw(0); 16];
    let filled = filled_words(id) as usize;
    if !call(
        id,
        sizes,
        table.as_slice(),
        rest.as_slice(),
        &mut out[..filled],
    ) {
        return Ok(false);
    }
    put_all(n, lane, dst, &out[..filled]);
    Ok(true)
}
