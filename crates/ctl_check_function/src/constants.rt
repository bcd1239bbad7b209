//! Constants outside functions.

ghost use Rattle.std.specs.Prelude.{◌≡◌, false, IsOk};
ghost use Rattle.ctl_scope.specs.Changes.{is_defined};
ghost use Rattle.ctl_check_rules.specs.Faults.{Gives};
ghost use Rattle.ctl_check_statement.specs.Leading.{Leads};
ghost use Rattle.ctl_check_function.specs.Constants.{constant_valued, constant_begun, constant_formed, constant_checked};

use crate::declared::{check_begun_new, check_first_value};
use crate::names::name_constant;
use ctl_check_init::{Begun, begin_initialiser, sized};
use ctl_check_rules::ExprFault;
use ctl_check_statement::check_shape;
use ctl_program::Definitions;
use ctl_scope::Scope;
use ctl_tree::Constant as Written;
use ctl_types::{Constant, Shape};
use std::alloc::Global;

/// A constant with its value, whose name the scope has then, or its first fault. After a fault the scope is of no use.
pub fn check_constant(
    alloc: Global,
    scope: &mut Scope,
    definitions: &Definitions,
    written: &Written,
) -> Result<Constant, ExprFault>
    ensures { Leads result scope.new (constant_checked scope.old definitions.now written.now) }
{
    let made = check_unnamed(alloc, scope, definitions, written)?;
    name_constant(alloc, scope, written.name.as_slice())?;
    Ok(made)
}

// A constant without its name.
fn check_unnamed(
    alloc: Global,
    scope: &Scope,
    definitions: &Definitions,
    written: &Written,
) -> Result<Constant, ExprFault>
    ensures form { Gives result (constant_formed scope.now definitions.now written.now) }
    ensures new { IsOk result → is_defined scope.now written.now.name ≡ false }
{
    let sizes = written.sizes.as_slice();
    let shape = check_shape(alloc, scope, definitions, true, &written.shape, sizes)?;
    check_with_shape(alloc, scope, definitions, written, shape)
}

// A constant of a shape.
fn check_with_shape(
    alloc: Global,
    scope: &Scope,
    definitions: &Definitions,
    written: &Written,
    shape: Shape,
) -> Result<Constant, ExprFault>
    ensures form { Gives result (constant_begun scope.now definitions.now written.now shape) }
    ensures new { IsOk result → is_defined scope.now written.now.name ≡ false }
{
    let given = begin_initialiser(alloc, scope, definitions, &written.value, &shape)?;
    check_with_initialiser(alloc, scope, definitions, written, &shape, given)
}

// A constant whose initialiser is begun.
fn check_with_initialiser(
    alloc: Global,
    scope: &Scope,
    definitions: &Definitions,
    written: &Written,
    shape: &Shape,
    given: Option<Begun>,
) -> Result<Constant, ExprFault>
    ensures form { Gives result (constant_valued scope.now definitions.now written.now shape.now given) }
    ensures new { IsOk result → is_defined scope.now written.now.name ≡ false }
{
    let is_twice = scope.is_defined(alloc, written.name.as_slice())?;
    let begun = check_begun_new(scope, written.token, is_twice, shape.base(), given)?;
    let value = check_first_value(alloc, scope.unit(), written.token, definitions, &begun.form)?;
    let shape = sized(alloc, begun.sizes.as_slice(), shape.base())?;
    Ok(Constant { shape, value })
}
