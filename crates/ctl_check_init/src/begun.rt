//! Checked initialisers, and brace lists that are being checked.

use ctl_types::{Initialiser, Shape, SizeList};
use sqlite_items::Items;

/// A checked initialiser: its typed form, the sizes that what is declared has by it, and the greatest depth of a
/// function of the program that is called in it.
#[derive(Drop)]
pub struct Begun {
    pub form: Initialiser,
    pub sizes: SizeList,
    pub depth: u32,
}

/// The parts of a brace list up to some part: those that fit, whether all do, and the depth.
#[derive(Drop)]
pub struct Parts {
    pub forms: Items<Initialiser>,
    pub fit: bool,
    pub depth: u32,
}

/// The elements of an array up to some element, and the shape that the first of them that fits gives to all.
#[derive(Drop)]
pub struct Elements {
    pub parts: Parts,
    pub given: Option<Shape>,
}
