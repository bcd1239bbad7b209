//! The instances of functions that an entry reaches, with what varies in them.
#![tactic(auto)]

pub use entry::entry_instance;
pub use faults::first_fault;
pub use instance::same;
pub use knowledge::Knowledge;
pub use reaching::{TableFault, reach};
pub use row::marked;
pub use told::{InstanceLevels, all_told};

mod entry;
mod faults;
mod instance;
mod knowledge;
mod reaching;
mod row;
mod told;
