//! The call of a function of the library on values.

ghost use Rattle.std.specs.Prelude.{◌≡◌, ◌≤◌, length, IfOk, OnOk, Some, true, slice_get};
ghost use Rattle.fix_num.specs.declared.TheConstants.{FRACTION};
ghost use Rattle.ctl_stdlib.specs.Rows.{row};
ghost use Rattle.ctl_stdlib.specs.Shapes.{filled_words, stated_words};
ghost use Rattle.ctl_types.specs.Definitions.{chromaticities};
ghost use Rattle.ctl_types.specs.Library.{holds_input, holds_table, library_answer, param_shapes, words_of};
ghost use Rattle.ctl_types.specs.Values.{takes};
ghost use Rattle.eval_library.specs.Ends.{answer_of};
ghost use Rattle.eval_library.specs.declared.calling.TheConstants.{MOST_WORDS};

use crate::results::give;
use crate::takes::takes_row;
use crate::words::{Group, words_of};
use ctl_base::Memory;
use ctl_stdlib::{LibraryId, RowShape, call, params, result};
use ctl_types::{Struct, Value};
use fix_num::Fix;
use std::alloc::Global;

// No function fills more words: a matrix of four rows has as many.
const MOST_WORDS: usize = 16;

/// How a call of a function of the library ends.
#[derive(Drop)]
pub enum LibraryEnd {
    /// The sizes and the arguments are not what the function takes.
    Unfit,
    /// An assertion is false.
    Refused,
    Given(Value),
}

/// Calls a function of the library with open sizes and arguments. Its outputs get their new values in their places.
pub fn call_library(
    alloc: Global,
    id: LibraryId,
    structs: &[Struct],
    sizes: &[u32],
    frame: &mut Vec<Option<Value>>,
) -> Result<LibraryEnd, Memory>
    requires library { slice_get structs.now 0 ≡ Some chromaticities }
    ensures { IfOk result (λ end. library_answer structs.now id sizes.now frame.old.items ≡ answer_of end frame.new.items) }
{
    if !takes_row(alloc, structs, params(id), sizes, frame)? {
        return Ok(LibraryEnd::Unfit);
    }
    let mut buffer = [Fix::from_raw(0); MOST_WORDS];
    let words = &mut buffer[..filled_words(id)];
    if !fill(alloc, id, structs, sizes, frame, words)? {
        return Ok(LibraryEnd::Refused);
    }
    Ok(LibraryEnd::Given(give(alloc, id, words, frame)?))
}

// Fills the words of the result and of the outputs. The answer is false where an assertion is.
fn fill(
    alloc: Global,
    id: LibraryId,
    structs: &[Struct],
    sizes: &[u32],
    frame: &[Option<Value>],
    out: &mut [Fix],
) -> Result<bool, Memory>
    requires library { slice_get structs.now 0 ≡ Some chromaticities }
    requires taken { takes structs.now (param_shapes id) sizes.now frame.now ≡ true }
    requires room { length out.old ≡ filled_words (row id) }
    ensures answer { IfOk result (λ goes_on. goes_on ≡ (row id).answer (words_of holds_input (row id).params frame.now)) }
    ensures value { OnOk result (out.new ≡ (row id).value FRACTION sizes.now (words_of holds_table (row id).params frame.now) (words_of holds_input (row id).params frame.now)) }
{
    let table = words_of(alloc, Group::Table, params(id), frame)?;
    let inputs = words_of(alloc, Group::Inputs, params(id), frame)?;
    Ok(call(id, sizes, table.as_slice(), inputs.as_slice(), out))
}

// How many words a function fills.
fn filled_words(id: LibraryId) -> usize
    ensures words { result ≡ filled_words (row id) }
    ensures few { result ≤ MOST_WORDS }
{
    match id {
        LibraryId::Assert => 0,
        LibraryId::Lookup3DF => 3,
        _ => match result(id) {
            Some(shape) => stated_words(shape),
            None => 0,
        },
    }
}

fn stated_words(shape: RowShape) -> usize
    ensures words { result ≡ stated_words shape }
    ensures few { result ≤ MOST_WORDS }
{
    match shape {
        RowShape::Float3 => 3,
        RowShape::Float33 => 9,
        RowShape::Float44 => 16,
        RowShape::Pairs => 2,
        RowShape::Lattice => 3,
        RowShape::Chromaticities => 8,
        _ => 1,
    }
}
