//! Texts: their tokens and trees, and modules by name over files in memory. Tests alone.
#![tactic(auto)]

#[cfg(test)]
mod modules;
#[cfg(test)]
mod tokens;
#[cfg(test)]
mod trees;
