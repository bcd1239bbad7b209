//! The result and the outputs of a call, from the words that it filled.

ghost use Rattle.std.specs.Prelude.{◌≡◌, [], pos, drop, true, replicate, IfOk};
ghost use Rattle.ctl_stdlib.specs.Rows.{row};
ghost use Rattle.ctl_types.specs.Library.{Given, given_by, outputs_from, result_from};
ghost use Rattle.ctl_types.specs.Scalars.{scalar};
ghost use Rattle.ctl_types.specs.Values.{one, fill_one, fill_all, filled, zero_of};
ghost use Rattle.ctl_types.specs.declared.shape.Base.TheVariants.{Scalar as ScalarBase};
ghost use Rattle.eval_library.specs.Means.{is_of_rows, output_from, IsFloat, OutputsAreFloats};

use ctl_base::{Memory, ScalarKind};
use ctl_stdlib::{Base, LibraryId, Param, params, result};
use ctl_types::{Scalar, Value};
use eval_scalars::zero_scalar;
use fix_num::Fix;
use sqlite_items::Items;
use std::alloc::Global;

/// The result, from the words that a function filled; its outputs get the words behind those of the result.
pub fn give(
    alloc: Global,
    id: LibraryId,
    words: &[Fix],
    frame: &mut Vec<Option<Value>>,
) -> Result<Value, Memory>
    requires { OutputsAreFloats (row id).params frame.old.items }
    ensures { IfOk result (λ v. given_by id frame.old.items words.now ≡ Given v frame.new.items) }
{
    let mut at = 0;
    let value = result_from(alloc, id, words, &mut at)?;
    put_outputs(params(id), words, at, frame);
    Ok(value)
}

fn result_from(alloc: Global, id: LibraryId, words: &[Fix], at: &mut usize) -> Result<Value, Memory>
    requires { at.old ≡ 0 }
    ensures { IfOk result (λ v. result_from (row id).result words.now ≡ record { value = v; rest = drop at.new words.now }) }
{
    match result(id) {
        Some(shape) => match shape.base() {
            Base::Scalar(kind) => shaped(alloc, shape.stated_sizes(), kind, words, at),
            Base::Chromaticities => Ok(Value::Fields(Items::new(alloc))),
        },
        None => Ok(Value::Fields(Items::new(alloc))),
    }
}

// The value of a shape whose scalars are the next words.
#[cycle(shaped)]
fn shaped(
    alloc: Global,
    sizes: &[u32],
    kind: ScalarKind,
    words: &[Fix],
    at: &mut usize,
) -> Result<Value, Memory>
    requires { is_of_rows kind ≡ true }
    ensures { IfOk result (λ v. filled (zero_of [] sizes.now (ScalarBase kind)) (drop at.old words.now) ≡ record { value = v; rest = drop at.new words.now }) }
{
    match sizes.split_first() {
        None => Ok(Value::One(next(kind, words, at))),
        Some((size, rest)) => Ok(Value::List(shaped_all(alloc, *size, rest, kind, words, at)?)),
    }
}

// So many values of one shape whose scalars are the next words.
#[cycle(shaped)]
fn shaped_all(
    alloc: Global,
    count: u32,
    sizes: &[u32],
    kind: ScalarKind,
    words: &[Fix],
    at: &mut usize,
) -> Result<Items<Value>, Memory>
    requires { is_of_rows kind ≡ true }
    ensures { IfOk result (λ vs. fill_all (replicate count (filled (zero_of [] sizes.now (ScalarBase kind)))) (drop at.old words.now) ≡ record { value = vs; rest = drop at.new words.now }) }
{
    let mut parts = Items::new(alloc);
    let mut left = count;
    'each: while left > 0 {
        let part = shaped(alloc, sizes, kind, words, at)?;
        parts.push(part)?;
        left -= 1;
    }
    Ok(parts)
}

// The scalar that the next word makes; zero where none is left.
fn next(kind: ScalarKind, words: &[Fix], at: &mut usize) -> Scalar
    requires { is_of_rows kind ≡ true }
    ensures { fill_one (scalar kind (pos 0)) (drop at.old words.now) ≡ record { value = one result; rest = drop at.new words.now } }
{
    if *at >= words.len() {
        return zero_scalar(kind);
    }
    let word = words[*at];
    *at += 1;
    scalar_of(kind, word)
}

fn scalar_of(kind: ScalarKind, word: Fix) -> Scalar
    requires { is_of_rows kind ≡ true }
    ensures { result ≡ scalar kind word }
{
    match kind {
        ScalarKind::Bool => Scalar::Bool(word.truth()),
        ScalarKind::Half => Scalar::Half(word),
        _ => Scalar::Float(word),
    }
}

// The outputs are the next words.
fn put_outputs(params: &[Param], words: &[Fix], at: usize, frame: &mut Vec<Option<Value>>)
    requires { OutputsAreFloats params.now frame.old.items }
    ensures { frame.new.items ≡ outputs_from params.now frame.old.items (drop at words.now) }
{
    let mut at = at;
    let mut i = 0;
    'each: while i < params.len() {
        if i >= frame.len() {
            return;
        }
        at = put_output(params[i], words, at, &mut frame[i]);
        i += 1;
    }
}

// The argument of an output is the next word. The answer is the place of the word behind it.
fn put_output(param: Param, words: &[Fix], at: usize, slot: &mut Option<Value>) -> usize
    requires { param.is_output ≡ true → IsFloat slot.old }
    ensures { output_from param slot.old (drop at words.now) ≡ record { value = slot.new; rest = drop result words.now } }
{
    if !param.is_output || at >= words.len() {
        return at;
    }
    *slot = Some(Value::One(Scalar::Float(words[at])));
    at + 1
}
