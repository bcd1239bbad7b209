//! The rules by which the checker makes the typed form of an expression from those of its parts: literals, conversions,
//! operators, and which shapes fit which.
#![tactic(auto)]

pub use checked::{Checked, Joined, Linked};
pub use fault::{ExprFault, broken, node_of};
pub use operators::{
    between, chain_form, check_joined, check_link, check_literal, check_unary, logic_form,
    logic_of, of_kind, operand, scalar_kind, unjoined, unlinked,
};
pub use shapes::{append_default, append_open, base_conversion, copy_sizes, fitting, stated_sizes};

mod checked;
mod fault;
mod operators;
mod shapes;
