//! The functions on tables of cases.

mod cases;
mod tables;
