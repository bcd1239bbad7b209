//! Worked values, and a table of cases.

mod cases;
mod tables;
