//! Variables, and constants inside functions.

ghost use Rattle.std.specs.Prelude.{◌≡◌, length, Some, None, true, false, IfOk};
ghost use Rattle.std.specs.Option.{option_copied};
ghost use Rattle.ctl_scope.specs.Changes.{is_declared};
ghost use Rattle.ctl_types.specs.Shapes.{base_of, arrays};
ghost use Rattle.ctl_check_rules.specs.Faults.{Gives, rule_at};
ghost use Rattle.ctl_check_rules.specs.Shapes.{stated_sizes};
ghost use Rattle.ctl_check_init.specs.Initialisers.{base_shape};
ghost use Rattle.ctl_check_statement.specs.Leading.{Leads};
ghost use Rattle.ctl_check_statement.specs.Declarations.{declared_shape, declaring_rule, first_rule, declared_with, shape_checked, begun_with, variable_declared, constant_declared};

use crate::stated::Declared;
use ctl_base::Memory;
use ctl_check_init::{Begun, begin_initialiser, check_begun};
use ctl_check_rules::{ExprFault, broken, copy_sizes, stated_sizes};
use ctl_check_size::{check_base, check_extents};
use ctl_program::Definitions;
use ctl_scope::{CheckKind, Scope, ScopeFault, Variable};
use ctl_tree::{
    ArraySize, Constant, Initialiser as Written, ShapeName, Variable as WrittenVariable,
};
use ctl_types::{Base, Declaration, Extent, Initialiser, LocalShape, Shape, SizeList};
use sqlite_items::Boxed;
use std::alloc::Global;

/// A variable, or its first fault.
pub(crate) fn check_variable(
    alloc: Global,
    scope: &mut Scope,
    definitions: &Definitions,
    written: &WrittenVariable,
) -> Result<Declared, ExprFault>
    ensures { Leads result scope.new (variable_declared scope.old definitions.now written.now) }
{
    let has_first = written.value.is_some();
    let sizes = written.sizes.as_slice();
    let shape = check_shape(alloc, scope, definitions, has_first, &written.shape, sizes)?;
    check_first(alloc, scope, definitions, written, &shape)
}

// The first value of a variable of a shape.
fn check_first(
    alloc: Global,
    scope: &mut Scope,
    definitions: &Definitions,
    written: &WrittenVariable,
    shape: &Shape,
) -> Result<Declared, ExprFault>
    ensures { Leads result scope.new (begun_with scope.old definitions.now false written.now.name written.now.token shape.now written.now.value) }
{
    let name = written.name.as_slice();
    match &written.value {
        Some(value) => begin(
            alloc,
            scope,
            definitions,
            false,
            name,
            written.token,
            shape,
            value,
        ),
        None => begin_at_zero(alloc, scope, name, written.token, shape),
    }
}

/// A constant, or its first fault.
pub(crate) fn check_constant(
    alloc: Global,
    scope: &mut Scope,
    definitions: &Definitions,
    written: &Constant,
) -> Result<Declared, ExprFault>
    ensures { Leads result scope.new (constant_declared scope.old definitions.now written.now) }
{
    let sizes = written.sizes.as_slice();
    let shape = check_shape(alloc, scope, definitions, true, &written.shape, sizes)?;
    let name = written.name.as_slice();
    begin(
        alloc,
        scope,
        definitions,
        true,
        name,
        written.token,
        &shape,
        &written.value,
    )
}

/// The shape of what is declared by what it is called and the sizes of its arrays, or its first fault. A size may be
/// left open where there is a first value.
pub fn check_shape(
    alloc: Global,
    scope: &Scope,
    definitions: &Definitions,
    has_first: bool,
    shape: &ShapeName,
    sizes: &[ArraySize],
) -> Result<Shape, ExprFault>
    ensures { Gives result (shape_checked scope.now definitions.now has_first shape.now sizes.now) }
{
    let base = check_base(alloc, scope, shape)?;
    let found = check_extents(alloc, scope, definitions, has_first, base, sizes)?;
    Ok(declared_shape(alloc, found.extents.as_slice(), base)?)
}

// Arrays of these extents.
fn declared_shape(alloc: Global, extents: &[Extent], base: Base) -> Result<Shape, Memory>
    ensures { IfOk result (λ shape. shape ≡ declared_shape extents.now base) }
{
    match extents.split_first() {
        Some((extent, inner)) => {
            let elements = declared_shape(alloc, inner, base)?;
            Ok(Shape::Array(Boxed::new(alloc, elements)?, *extent))
        }
        None => Ok(base_shape(base)),
    }
}

// What arrays hold in the end, as a shape.
fn base_shape(base: Base) -> Shape
    ensures { result ≡ base_shape base }
{
    match base {
        Base::Scalar(kind) => Shape::Scalar(kind),
        Base::Struct(n) => Shape::Struct(n),
    }
}

// A variable without a first value.
fn begin_at_zero(
    alloc: Global,
    scope: &mut Scope,
    name: &[u8],
    token: u32,
    shape: &Shape,
) -> Result<Declared, ExprFault>
    ensures { Leads result scope.new (rule_at scope.old.unit token (declaring_rule scope.old false name.now (stated_sizes shape.now) (base_of shape.now) None 0)) }
{
    let sizes = stated_sizes(alloc, shape)?;
    declare(
        alloc,
        scope,
        false,
        name,
        token,
        sizes,
        shape.base(),
        None,
        0,
    )
}

// What is declared with a first value.
fn begin(
    alloc: Global,
    scope: &mut Scope,
    definitions: &Definitions,
    is_constant: bool,
    name: &[u8],
    token: u32,
    shape: &Shape,
    value: &Written,
) -> Result<Declared, ExprFault>
    ensures { Leads result scope.new (begun_with scope.old definitions.now is_constant name.now token shape.now (Some value.now)) }
{
    let first = begin_initialiser(alloc, scope, definitions, value, shape)?;
    declare_with(alloc, scope, is_constant, name, token, shape.base(), first)
}

// What is declared with the first value that was made for it.
fn declare_with(
    alloc: Global,
    scope: &mut Scope,
    is_constant: bool,
    name: &[u8],
    token: u32,
    base: Base,
    first: Option<Begun>,
) -> Result<Declared, ExprFault>
    ensures { Leads result scope.new (declared_with scope.old is_constant name.now token base first) }
{
    if scope.is_declared(name) {
        return Err(broken(scope.unit(), token, CheckKind::Twice));
    }
    let begun = check_begun(scope, token, base, first)?;
    let Begun { form, sizes, depth } = begun;
    declare(
        alloc,
        scope,
        is_constant,
        name,
        token,
        sizes,
        base,
        Some(form),
        depth,
    )
}

// Declares what has these sizes and this base, where its name is new.
fn declare(
    alloc: Global,
    scope: &mut Scope,
    is_constant: bool,
    name: &[u8],
    token: u32,
    sizes: SizeList,
    base: Base,
    first: Option<Initialiser>,
    depth: u32,
) -> Result<Declared, ExprFault>
    ensures { Leads result scope.new (rule_at scope.old.unit token (declaring_rule scope.old is_constant name.now sizes base first depth)) }
{
    let unit = scope.unit();
    let seen = LocalShape {
        sizes: copy_sizes(alloc, sizes.as_slice())?,
        base,
    };
    match scope.declare(alloc, name, Variable::new(seen, !is_constant)) {
        Ok(variable) => Ok(Declared {
            declaration: Declaration {
                variable,
                is_constant,
                shape: LocalShape { sizes, base },
                first,
            },
            depth,
        }),
        Err(ScopeFault::Twice) => Err(broken(unit, token, CheckKind::Twice)),
        Err(ScopeFault::Memory) => Err(ExprFault::Memory),
    }
}
