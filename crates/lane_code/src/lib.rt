//! The language of the machine: code in blocks of instructions over slots, which code is valid, and what code means for
//! one lane.
#![tactic(auto)]

pub use code::{Code, NotValid};
pub use end::LaneEnd;
pub use instr::{Instr, Op1, Op2, Slot};
pub use lane::Lane;
pub use laws::{
    blocks_added, instructions_keep_apart, lists_join, loops_go_round, marks_suffice,
    more_changes_nothing, one_meaning, slots_behind_stay, turns_never_rise, valid_blocks_stand,
};
pub use mark::Mark;
pub use parts::Parts;
pub use run::run_lane;
pub use valid::{Numbers, is_sound};

mod code;
mod end;
mod instr;
mod kinds;
mod lane;
mod laws;
mod library;
mod made;
mod mark;
mod parts;
mod row_words;
mod run;
mod simple;
mod valid;
mod words;
