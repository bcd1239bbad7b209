//! The words of arguments.

ghost use Rattle.std.specs.Prelude.{◌≡◌, ◌++◌, IfOk, OnOk};
ghost use Rattle.ctl_types.specs.Library.{words_of};
ghost use Rattle.eval_library.specs.Means.{chosen_by, flat_of, words_by};

use ctl_base::Memory;
use ctl_stdlib::Param;
use ctl_types::Value;
use fix_num::Fix;
use sqlite_items::Items;
use std::alloc::Global;

/// The table of a look-up, or the inputs beside it.
#[derive(Clone, Copy, PartialEq, Eq)]
pub enum Group {
    Table,
    Inputs,
}

fn is_chosen(group: Group, param: Param) -> bool
    ensures { result ≡ chosen_by group param }
{
    let is_table = param.shape.open_sizes() != 0;
    match group {
        Group::Table => is_table,
        Group::Inputs => !(is_table || param.is_output),
    }
}

/// The words of the arguments of a group.
pub fn words_of(
    alloc: Global,
    group: Group,
    params: &[Param],
    frame: &[Option<Value>],
) -> Result<Items<Fix>, Memory>
    ensures { IfOk result (λ words. words ≡ words_of (chosen_by group) params.now frame.now) }
{
    let mut words = Items::new(alloc);
    let mut i = 0;
    'each: while i < params.len() {
        if i >= frame.len() {
            return Ok(words);
        }
        append_chosen(group, params[i], &frame[i], &mut words)?;
        i += 1;
    }
    Ok(words)
}

// The words of an argument, where its parameter is of the group.
fn append_chosen(
    group: Group,
    param: Param,
    value: &Option<Value>,
    words: &mut Items<Fix>,
) -> Result<(), Memory>
    ensures { OnOk result (words.new ≡ words.old ++ words_by group param value.now) }
{
    if is_chosen(group, param) {
        append_words(value, words)
    } else {
        Ok(())
    }
}

fn append_words(value: &Option<Value>, words: &mut Items<Fix>) -> Result<(), Memory>
    ensures { OnOk result (words.new ≡ words.old ++ flat_of value.now) }
{
    match value {
        Some(value) => value.append_words(words),
        None => Ok(()),
    }
}
