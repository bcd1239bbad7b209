//! Laws that the functions of the library give numbers in the range of their kind.
#![tactic(auto)]

pub use ranges::{
    angles_stay_in_range, elementary_stays_in_range, raws_come_out, tables_stay_in_range,
    vectors_stay_in_range,
};

mod ranges;
