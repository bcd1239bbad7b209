//! Images as files of SMPTE 268M (DPX): read in two byte orders, at ten and at sixteen bits, and written in one form.
#![tactic(auto)]

mod canvas;
mod codes;
mod fault;
mod file;
mod header;
mod image;
mod law;
mod layout;
mod pixels;
mod reading;
mod writing;

pub use canvas::Canvas;
pub use codes::CodeList;
pub use fault::{DpxFault, ReadError};
pub use image::Image;
pub use law::{codes_stand, fields_in_place, reads_back};
pub use reading::read;
pub use writing::write;
