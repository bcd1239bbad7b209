//! Programs as short texts: operands before their operators, and behind each value what is done to it. A literal is its
//! word and its kind; constants, variables, functions and structs are told by their numbers.

pub(crate) mod expressions;
pub(crate) mod programs;
pub(crate) mod statements;
pub(crate) mod values;
