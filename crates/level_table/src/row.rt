//! What varies in an instance, as a row: its result, and then its variables.

ghost use Rattle.std.specs.Prelude.{◌≡◌, ◌≤◌, IfOk, [], get_or, false};
ghost use Rattle.level_rules.specs.Rows.{in_row, tells};
ghost use Rattle.level_table.specs.Known.{AllShort};

use ctl_base::Memory;
use level_rules::Instance;
use level_sets::{Rows, tell_mark};
use sqlite_items::Items;
use std::alloc::Global;

fn greater(a: usize, b: usize) -> usize
    ensures first { a ≤ result }
    ensures second { b ≤ result }
{
    if a < b { b } else { a }
}

// A length that none of these rows passes.
fn longest(rows: &[Items<bool>]) -> usize
    ensures { AllShort result rows.now }
{
    let mut most = 0;
    for row in rows {
        most = greater(most, row.len());
    }
    most
}

fn rows_at(rows: &[Rows], function: u32) -> &[Items<bool>]
    ensures { result.now ≡ get_or rows.now function [] }
{
    let number = function as usize;
    if number < rows.len() {
        rows[number].as_slice()
    } else {
        &[]
    }
}

/// What varies in an instance, as the rows tell it.
pub fn row_of(alloc: Global, rows: &[Rows], instance: &Instance) -> Result<Items<bool>, Memory>
    ensures { IfOk result (λ row. in_row row ≡ tells rows.now instance.now) }
{
    let mut row = Vec::new(alloc);
    for mark in 0..longest(rows_at(rows, instance.function)) {
        row.push(tell_mark(rows, instance, mark))?;
    }
    Ok(Items::from_vec(row))
}

/// Whether a row has this mark.
pub fn marked(row: &[bool], mark: usize) -> bool
    ensures { result ≡ get_or row.now mark false }
{
    if mark < row.len() { row[mark] } else { false }
}
