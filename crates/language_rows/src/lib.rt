//! Typed programs and what they give. Tests alone.
#![tactic(auto)]

#[cfg(test)]
mod forms;
#[cfg(test)]
mod programs;
