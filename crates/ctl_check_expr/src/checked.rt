//! Checked calls, and paths and arguments that are being checked.

use ctl_types::{Argument, Base, SizeList, TypedCall, TypedExpr, TypedStep};
use sqlite_items::Items;

/// A checked call: its typed form, the shape of its result, the greatest depth, and its own token.
#[derive(Drop)]
pub struct CheckedCall {
    pub call: TypedCall,
    pub sizes: SizeList,
    pub base: Option<Base>,
    pub depth: u32,
    pub token: u32,
}

/// A path up to some step: its root, its steps, the shape there, the depth, and the own token of the step.
#[derive(Drop)]
pub struct Part {
    pub root: TypedExpr,
    pub steps: Items<TypedStep>,
    pub sizes: SizeList,
    pub base: Option<Base>,
    pub depth: u32,
    pub token: u32,
}

/// The arguments of a call up to some argument, the open sizes that they give, and the depth.
#[derive(Drop)]
pub struct Passed {
    pub arguments: Items<Argument>,
    pub sizes: SizeList,
    pub depth: u32,
}
