//! The function around.

use ctl_base::ByteText;

/// The function around a form, by its name without namespaces.
#[derive(Drop)]
pub enum Around {
    Outside,
    /// The form stands in the function's head: in a size or a default of a parameter.
    Head(ByteText),
    Body(ByteText),
}
