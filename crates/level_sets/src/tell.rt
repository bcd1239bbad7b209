//! What rows tell.

ghost use Rattle.std.specs.Prelude.{◌≡◌, ◌&&◌, ◌||◌, [], ◌∷◌, false, get_or};
ghost use Rattle.level_rules.specs.Rows.{mark_of, in_row};
ghost use Rattle.level_sets.specs.Marks.{pick_mark, tells_mark};
ghost use Rattle.level_rules.specs.Rules.{any};

use level_rules::{Holder, Instance};
use sqlite_items::Items;

/// The rows of a function: that of varying control, and then one for each parameter.
pub type Rows = Items<Items<bool>>;

/// One or the other.
pub fn either(a: bool, b: bool) -> bool
    ensures { result ≡ (a || b) }
{
    a || b
}

/// The place of a holder in a row.
pub fn mark_of(holder: Holder) -> usize
    ensures { result ≡ mark_of holder }
{
    match holder {
        Holder::Result => 0,
        Holder::Variable(x) => x as usize + 1,
    }
}

fn marked(row: &[bool], mark: usize) -> bool
    ensures { result ≡ get_or row.now mark false }
{
    if mark < row.len() { row[mark] } else { false }
}

/// Whether a row has this.
pub fn in_row(row: &[bool], holder: Holder) -> bool
    ensures { result ≡ in_row row.now holder }
{
    marked(row, mark_of(holder))
}

// Whether one of the rows that are picked has this mark.
fn pick(bits: &[bool], rows: &[Items<bool>], mark: usize) -> bool
    ensures { result ≡ pick_mark bits.now rows.now mark }
{
    let mut i = 0;
    'each: while i < bits.len() {
        if i >= rows.len() {
            return false;
        }
        if picked(bits[i], rows[i].as_slice(), mark) {
            return true;
        }
        i += 1;
    }
    false
}

fn picked(bit: bool, row: &[bool], mark: usize) -> bool
    ensures { result ≡ (bit && get_or row.now mark false) }
{
    bit && marked(row, mark)
}

fn pick_all(control: bool, levels: &[bool], rows: &[Items<bool>], mark: usize) -> bool
    ensures { result ≡ pick_mark (control ∷ levels.now) rows.now mark }
{
    match rows {
        [] => false,
        [first, rest @ ..] => {
            if picked(control, first.as_slice(), mark) {
                return true;
            }
            pick(levels, rest, mark)
        }
    }
}

fn rows_of(rows: &[Rows], function: u32) -> &[Items<bool>]
    ensures { result.now ≡ get_or rows.now function [] }
{
    let number = function as usize;
    if number < rows.len() {
        rows[number].as_slice()
    } else {
        &[]
    }
}

/// Whether the holder of this mark varies in an instance.
pub fn tell_mark(rows: &[Rows], instance: &Instance, mark: usize) -> bool
    ensures { result ≡ tells_mark rows.now instance.now mark }
{
    pick_all(
        instance.control,
        instance.levels.as_slice(),
        rows_of(rows, instance.function),
        mark,
    )
}

/// Whether one of these varies.
pub fn any(levels: &[bool]) -> bool
    ensures { result ≡ any levels.now }
{
    for varies in levels {
        if *varies {
            return true;
        }
    }
    false
}
