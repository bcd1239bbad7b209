//! What a shape is called.

ghost use Rattle.ctl_check_rules.specs.Faults.{Gives, rule_at};
ghost use Rattle.ctl_check_size.specs.Names.{struct_named, base_checked};

use ctl_base::ScalarKind;
use ctl_check_rules::{ExprFault, broken};
use ctl_scope::{CheckKind, Meaning, Scope};
use ctl_tree::{QualifiedName, ShapeKind, ShapeName};
use ctl_types::Base;
use std::alloc::Global;

/// What the arrays of a declaration hold, by the name of its shape. A name that means nothing is UnknownName, and one
/// that is no struct's NotAType.
pub fn check_base(alloc: Global, scope: &Scope, shape: &ShapeName) -> Result<Base, ExprFault>
    ensures { Gives result (base_checked scope.now shape.now) }
{
    match &shape.kind {
        ShapeKind::Bool => Ok(Base::Scalar(ScalarKind::Bool)),
        ShapeKind::Int => Ok(Base::Scalar(ScalarKind::Int)),
        ShapeKind::Unsigned => Ok(Base::Scalar(ScalarKind::Unsigned)),
        ShapeKind::Half => Ok(Base::Scalar(ScalarKind::Half)),
        ShapeKind::Float => Ok(Base::Scalar(ScalarKind::Float)),
        ShapeKind::Named(name) => {
            let meaning = scope.look_up(alloc, name.get())?;
            struct_named(scope.unit(), shape.token, meaning)
        }
    }
}

// A name in the place of a shape, by what it stands for.
fn struct_named(unit: u32, token: u32, meaning: Option<Meaning>) -> Result<Base, ExprFault>
    ensures { Gives result (rule_at unit token (struct_named meaning)) }
{
    match meaning {
        Some(Meaning::Struct(n)) => Ok(Base::Struct(n)),
        Some(Meaning::Variable(_)) => Err(broken(unit, token, CheckKind::NotAType)),
        Some(Meaning::Constant(_)) => Err(broken(unit, token, CheckKind::NotAType)),
        Some(Meaning::Function(_)) => Err(broken(unit, token, CheckKind::NotAType)),
        Some(Meaning::Namespace) => Err(broken(unit, token, CheckKind::NotAType)),
        Some(Meaning::Library(_)) => Err(broken(unit, token, CheckKind::NotAType)),
        None => Err(broken(unit, token, CheckKind::UnknownName)),
    }
}
