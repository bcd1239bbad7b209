//! An image rendered by the tree: each pixel is the run of a stage on that pixel alone.
#![tactic(auto)]

pub use fault::RenderFault;
pub use image::render_image;
pub use laws::{stages_keep_rules, stages_render_well};
pub use pixel::Pixel;
pub use stage::Stage;

mod fault;
mod image;
mod inputs;
mod laws;
mod line;
mod names;
mod outputs;
mod pixel;
mod simple;
mod stage;
