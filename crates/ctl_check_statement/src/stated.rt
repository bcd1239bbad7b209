//! Checked statements, and lists and arms that are being checked.

use ctl_check_init::Assigned;
use ctl_check_rules::Checked;
use ctl_types::{Arm, Declaration, ForStart, PrintItem, TypedStatement};
use sqlite_items::Items;

/// A checked declaration, and the greatest depth of a function of the program that is called in it.
#[derive(Drop)]
pub struct Declared {
    pub declaration: Declaration,
    pub depth: u32,
}

/// A checked statement, and the greatest depth of a function of the program that is called in it.
#[derive(Drop)]
pub struct Stated {
    pub form: TypedStatement,
    pub depth: u32,
}

/// The statements of a block up to some statement, and the depth.
#[derive(Drop)]
pub struct Statements {
    pub forms: Items<TypedStatement>,
    pub depth: u32,
}

/// The arms of an `if` up to some arm: those whose test is a scalar, whether all are, and the depth.
#[derive(Drop)]
pub struct Arms {
    pub forms: Items<Arm>,
    pub fit: bool,
    pub depth: u32,
}

/// What is printed, up to some item: its items, whether each has a value, and the depth.
#[derive(Drop)]
pub struct Printed {
    pub forms: Items<PrintItem>,
    pub fit: bool,
    pub depth: u32,
}

/// How a `for` begins, and the greatest depth of a function of the program that is called in it.
#[derive(Drop)]
pub struct Started {
    pub form: ForStart,
    pub depth: u32,
}

/// How a `for` begins, its test, and the assignment after each turn.
#[derive(Drop)]
pub struct Head {
    pub first: Started,
    pub test: Checked,
    pub next: Assigned,
}
