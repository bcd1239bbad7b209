//! The recursion of the evaluator: what an expression, a place, a call, a statement, an initialiser and a function give.
#![tactic(auto)]

pub use running::{eval_initialiser, run_function};
pub use scene::Scene;

mod calls;
mod ends;
mod running;
mod scene;
mod sending;
mod single;
mod storing;
