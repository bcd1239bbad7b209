//! Texts with their tokens and with their faults.

mod cases;
mod tables;
