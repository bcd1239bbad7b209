//! How structs, constants, functions and parameters come to have names that are new.

ghost use Rattle.std.specs.Prelude.{◌≡◌, false, OnOk};
ghost use Rattle.ctl_scope.specs.Changes.{is_declared, is_defined, with_struct, with_constant, with_function};
ghost use Rattle.ctl_check_function.specs.Parameters.{parameter_seen};

use crate::sizes::{local_shape, open_count};
use ctl_base::Memory;
use ctl_scope::{Scope, ScopeFault, Variable};
use ctl_types::Parameter;
use std::alloc::Global;

/// A struct of so many scalars under a new name.
pub(crate) fn name_struct(
    alloc: Global,
    scope: &mut Scope,
    name: &[u8],
    scalars: u32,
) -> Result<(), Memory>
    requires { is_defined scope.old name.now ≡ false }
    ensures { OnOk result (scope.new ≡ with_struct name.now scalars scope.old) }
{
    match scope.define_struct(alloc, name, scalars) {
        Ok(_) => Ok(()),
        Err(ScopeFault::Twice) => unreachable!(),
        Err(ScopeFault::Memory) => Err(Memory),
    }
}

/// A constant under a new name.
pub(crate) fn name_constant(alloc: Global, scope: &mut Scope, name: &[u8]) -> Result<(), Memory>
    requires { is_defined scope.old name.now ≡ false }
    ensures { OnOk result (scope.new ≡ with_constant name.now scope.old) }
{
    match scope.define_constant(alloc, name) {
        Ok(_) => Ok(()),
        Err(ScopeFault::Twice) => unreachable!(),
        Err(ScopeFault::Memory) => Err(Memory),
    }
}

/// A function of this depth under a new name.
pub(crate) fn name_function(
    alloc: Global,
    scope: &mut Scope,
    name: &[u8],
    depth: u32,
) -> Result<(), Memory>
    requires { is_defined scope.old name.now ≡ false }
    ensures { OnOk result (scope.new ≡ with_function name.now depth scope.old) }
{
    match scope.define_function(alloc, name, depth) {
        Ok(_) => Ok(()),
        Err(ScopeFault::Twice) => unreachable!(),
        Err(ScopeFault::Memory) => Err(Memory),
    }
}

/// A parameter with a new name is visible from its end on.
pub(crate) fn see_parameter(
    alloc: Global,
    scope: &mut Scope,
    parameter: &Parameter,
) -> Result<(), Memory>
    requires { is_declared scope.old.blocks parameter.now.name ≡ false }
    ensures { OnOk result (scope.new ≡ parameter_seen parameter.now scope.old) }
{
    let opens = open_count(&parameter.shape)?;
    let shape = local_shape(alloc, scope.opens(), &parameter.shape)?;
    let variable = Variable::new(shape, parameter.is_output);
    match scope.declare_parameter(alloc, parameter.name.as_slice(), variable, opens) {
        Ok(_) => Ok(()),
        Err(ScopeFault::Twice) => unreachable!(),
        Err(ScopeFault::Memory) => Err(Memory),
    }
}
