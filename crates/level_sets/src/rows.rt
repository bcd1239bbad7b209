//! The rows of functions: for each the least set of varying control, and that of each parameter that varies alone.

ghost use Rattle.std.specs.Prelude.{◌≡◌, ◌+◌, ℕ, IfOk};
ghost use Rattle.level_rules.specs.Rows.{tells, HasRows, HaveRows, IsControlRow, IsRow};
ghost use Rattle.level_sets.specs.Closing.{IsMark, Marked, Passed, Closes};

use crate::scene::Scene;
use crate::statements::walk;
use crate::tell::{Rows, either, mark_of};
use ctl_base::Memory;
use ctl_types::{Function, TypedStatement};
use level_rules::{Found, Holder, puts_grow};
use sqlite_items::Items;
use std::alloc::Global;

// Marks a place of a row, which is made as long as need be, and tells whether it was not marked.
fn mark_at(mark: usize, row: &mut Vec<bool>) -> Result<bool, Memory>
    ensures { IfOk result (IsMark mark row.old.items row.new.items) }
{
    'each: while row.len() <= mark {
        row.push(false)?;
    }
    if row[mark] {
        return Ok(false);
    }
    row[mark] = true;
    Ok(true)
}

// Puts these into a row, and tells whether one was not in it.
fn mark_all(puts: &[Holder], row: &mut Vec<bool>) -> Result<bool, Memory>
    ensures { IfOk result (Marked puts.now row.old.items row.new.items) }
{
    let mut changed = false;
    for holder in puts {
        let one = mark_at(mark_of(*holder), row)?;
        changed = either(changed, one);
    }
    Ok(changed)
}

// One pass: what the rules put into a row, by what is in it, is put into it.
fn pass(
    alloc: Global,
    body: &TypedStatement,
    rows: &[Rows],
    control: bool,
    row: &mut Vec<bool>,
) -> Result<bool, Memory>
    ensures { IfOk result (λ changed. Passed rows.now body.now control row.old.items row.new.items changed) }
{
    let mut found = Found::new(alloc);
    let scene = Scene::new(rows, row, &[], &[]);
    walk(alloc, body, &scene, control, &mut found)?;
    mark_all(found.puts.as_slice(), row)
}

// Passes until nothing is put into the row that is not in it.
fn close(
    alloc: Global,
    body: &TypedStatement,
    rows: &[Rows],
    control: bool,
    row: &mut Vec<bool>,
) -> Result<(), Memory>
    ensures { IfOk result (λ _. Closes (tells rows.now) body.now control row.old.items row.new.items) }
{
    puts_grow();
    'each: while pass(alloc, body, rows, control, row)? {}
    Ok(())
}

// The row of varying control.
fn control_row(alloc: Global, function: &Function, rows: &[Rows]) -> Result<Items<bool>, Memory>
    ensures { IfOk result (λ row. IsControlRow (tells rows.now) function.now row) }
{
    let mut row = Vec::new(alloc);
    close(alloc, &function.body, rows, true, &mut row)?;
    Ok(Items::from_vec(row))
}

// The row of the parameter that has this mark.
fn parameter_row(
    alloc: Global,
    function: &Function,
    rows: &[Rows],
    mark: usize,
) -> Result<Items<bool>, Memory>
    ensures { IfOk result (λ row. (k : ℕ) → k + 1 ≡ mark → IsRow (tells rows.now) function.now k row) }
{
    let mut row = Vec::new(alloc);
    mark_at(mark, &mut row)?;
    close(alloc, &function.body, rows, false, &mut row)?;
    Ok(Items::from_vec(row))
}

// The rows of a function, by those of the functions before it.
fn function_rows(alloc: Global, function: &Function, rows: &[Rows]) -> Result<Rows, Memory>
    ensures { IfOk result (λ own. HasRows (tells rows.now) function.now own) }
{
    let mut own = Items::new(alloc);
    own.push(control_row(alloc, function, rows)?)?;
    let mut parameter = 0;
    'each: while parameter < function.parameters.len() {
        own.push(parameter_row(alloc, function, rows, parameter + 1)?)?;
        parameter += 1;
    }
    Ok(own)
}

/// The rows of all functions, each by those of the functions before it.
pub fn rows_of(alloc: Global, functions: &[Function]) -> Result<Items<Rows>, Memory>
    ensures { IfOk result (λ rows. HaveRows functions.now rows) }
{
    let mut rows = Items::new(alloc);
    for function in functions {
        let own = function_rows(alloc, function, rows.as_slice())?;
        rows.push(own)?;
    }
    Ok(rows)
}
