//! Worked values, and tables of cases at the edges.

mod cases;
mod tables;
