//! How a statement ends.

use ctl_types::Value;

/// The next statement runs, or the function is left with a value.
#[derive(Drop)]
pub enum End {
    Normal,
    Left(Value),
}
