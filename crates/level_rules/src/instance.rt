//! Instances of functions, and what a set of varying things can hold.

use ctl_types::OpenSizes;
use sqlite_items::Items;

/// An instance of a function: its number, the sizes that it is called with, for each parameter
/// whether it varies, and whether its control does.
#[derive(Drop)]
pub struct Instance {
    pub function: u32,
    pub sizes: OpenSizes,
    pub levels: Items<bool>,
    pub control: bool,
}

/// What holds a value in an instance: its result, or a variable by its number.
#[derive(Clone, Copy, PartialEq, Eq)]
pub enum Holder {
    Result,
    Variable(u32),
}
