//! Expressions as sizes.

use ctl_types::TypedExpr;

/// An expression as a size: the same with a number in place of each `.size`, and none where it can't be a size. And
/// whether it is a path of which the size can be asked: a name, and steps whose indices can be sizes.
#[derive(Drop)]
pub struct Sizing {
    pub constant: Option<TypedExpr>,
    pub is_path: bool,
}
