//! The sizes of a declaration.

use ctl_types::Extent;
use sqlite_items::Items;

/// The extents of a declaration's arrays, the outermost first, and how many scalars they make, an open one counting
/// as 1.
#[derive(Drop)]
pub struct Extents {
    pub extents: Items<Extent>,
    pub scalars: u32,
}
