//! Laws of what checked programs do.
#![tactic(auto)]

pub use clock::{count_changes_nothing, more_turns_end_alike, turns_never_rise};
pub use indices::index_lies_inside;
pub use sound::{entries_are_sound, expressions_are_sound, initialisers_are_sound, size_is_length};

mod clock;
mod indices;
mod sound;
