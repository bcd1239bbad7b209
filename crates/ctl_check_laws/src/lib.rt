//! What the checker accepts is well typed. Here is no code that runs: the laws are called for what they say.
#![tactic(auto)]

pub use laws::{
    fields_stand, typed_call_is_well_typed, typed_is_well_typed, typed_place_is_well_typed,
};
pub use taking::{conversion_has_type, fitting_has_type, place_has_type, stated_sizes_fit};

mod laws;
mod taking;
