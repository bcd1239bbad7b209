//! Files and consoles in memory and on the disk, and the bytes of images. Tests alone.
#![tactic(auto)]

#[cfg(test)]
mod boxes;
#[cfg(test)]
mod images;
