//! What the checker says of expressions: the typed form of each, or the first form that breaks a rule.
#![tactic(auto)]

pub use calls::is_assignable;
pub use checked::CheckedCall;
pub use ctl_check_rules::{Checked, ExprFault};
pub use ctl_scope::CheckKind;
pub use expressions::{check_call, check_expr, check_value};
pub use places::place_of;
pub use written::check_place;

mod calls;
mod checked;
mod expressions;
mod places;
mod written;
