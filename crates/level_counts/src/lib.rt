//! How many cells and parts an instance of a function has.
#![tactic(auto)]

pub use cells::{Cells, constant_cells, function_cells, more_cells};
pub use definitions::Definitions;
pub use parts::function_parts;
pub use value::{Item, ValueShape};

mod cells;
mod definitions;
mod expressions;
mod measured;
mod parts;
mod scalars;
mod statements;
#[cfg(test)]
mod tests;
mod told;
mod value;
mod variables;
