//! What the checker says of statements: the typed form of each, or the first form that breaks a rule.
#![tactic(auto)]

pub use declarations::check_shape;
pub use returning::surely_returns;
pub use stated::Stated;
pub use statements::{check_block, check_statement};

mod declarations;
mod forms;
mod printing;
mod returning;
mod single;
mod stated;
mod statements;
