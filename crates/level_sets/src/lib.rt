//! What varies in an instance of a function, computed: the rules on every form, and the rows of each function.
#![tactic(auto)]

pub use rows::rows_of;
pub use scene::Scene;
pub use statements::walk;
pub use tell::{Rows, tell_mark};

mod calls;
mod leaves;
mod look;
mod rows;
mod scene;
mod statements;
mod tell;
