//! Names, expressions and declarations that tokens spell, by recursive descent: each function reads a form, and answers
//! the form and the place after it, or the place of the fault.
#![tactic(auto)]

pub use declarations::{array_sizes, constant, sizes, value, variable};
pub use expressions::{arguments, expr, steps};
pub use fault::Fault;
pub use lexemes::Lexemes;
pub use lists::put;
pub use marks::{allow_deeper, begins_name, expect, name, sees, sees_name, sees_text, sees_word};
pub use names::{qualified_name, shape, shape_named};
pub use operators::begins_expr;

mod declarations;
mod expressions;
mod fault;
mod lexemes;
mod lists;
mod marks;
mod names;
mod operators;
