//! What a file reads as keeps the rules of images. Here is no code that runs: the law is called for what it says.
#![tactic(auto)]

pub use laws::read_images_keep_rules;

mod laws;
