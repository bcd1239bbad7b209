//! Checked expressions, and chains that are being checked.

use ctl_base::ScalarKind;
use ctl_types::{Base, Operand, SizeList, TypedExpr, TypedLink};
use sqlite_items::Items;

/// A checked expression: its typed form, its shape, the greatest depth of a function of the program that is
/// called in it, and its own token. What gives no value has no base.
#[derive(Drop)]
pub struct Checked {
    pub form: TypedExpr,
    pub sizes: SizeList,
    pub base: Option<Base>,
    pub depth: u32,
    pub token: u32,
}

/// A chain up to some link: its links, the kind of its value where it is a scalar, and the depth.
#[derive(Drop)]
pub struct Linked {
    pub links: Items<TypedLink>,
    pub left: Option<ScalarKind>,
    pub depth: u32,
}

/// The operands of `&&` or `||` up to some operand, whether all of them are scalars, and the depth.
#[derive(Drop)]
pub struct Joined {
    pub operands: Items<Operand>,
    pub fit: bool,
    pub depth: u32,
}
