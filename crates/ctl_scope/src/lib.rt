//! What names mean while a program is checked: the definitions so far by their names, the variables
//! from the innermost block outwards, the namespaces and the function around, and the look-up of a name.
//!
//! The definitions themselves stand beside a scope, which has their numbers.
#![tactic(auto)]

pub use around::Around;
pub use block::Block;
pub use kind::{CheckKind, ScopeFault};
pub use laws::{beside_begins, beside_grows, found_is_there, innermost_is_found, scopes_stay};
pub use meaning::Meaning;
pub use names::NameTable;
pub use scope::Scope;
pub use variable::Variable;

mod around;
mod block;
mod changes;
mod define;
mod kind;
mod laws;
mod look_up;
mod meaning;
mod names;
mod scope;
mod variable;
