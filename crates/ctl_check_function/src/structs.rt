//! Structs.

ghost use Rattle.std.specs.Prelude.{◌≡◌, [], false, IsOk};
ghost use Rattle.ctl_types.specs.Shapes.{struct_scalars};
ghost use Rattle.ctl_scope.specs.Changes.{is_defined};
ghost use Rattle.ctl_check_rules.specs.Faults.{Gives, rule_at};
ghost use Rattle.ctl_check_statement.specs.Leading.{Leads};
ghost use Rattle.ctl_check_function.specs.Structs.{has_field, field_rule, field_checked, fields_checked, struct_rule, struct_named, struct_checked};

use crate::names::name_struct;
use crate::scalars::scalars_of_fields;
use ctl_base::ByteText;
use ctl_base::limits::SCALARS;
use ctl_check_rules::{ExprFault, broken};
use ctl_check_statement::check_shape;
use ctl_program::Definitions;
use ctl_scope::{CheckKind, Scope};
use ctl_tree::{Field as WrittenField, Struct as Written};
use ctl_types::{Field, Shape, Struct};
use sqlite_items::Items;
use std::alloc::Global;

/// A struct, whose name the scope has then, or its first fault. After a fault the scope is of no use.
pub fn check_struct(
    alloc: Global,
    scope: &mut Scope,
    definitions: &Definitions,
    written: &Written,
) -> Result<Struct, ExprFault>
    ensures { Leads result scope.new (struct_checked scope.old definitions.now written.now) }
{
    let fields = check_fields(alloc, scope, definitions, written.fields.as_slice())?;
    name_made(alloc, scope, written, Struct { fields })
}

// A struct under its name.
#[tactic(auto, using(crate::proofs::Capping::capped_rule, crate::proofs::Capping::rule_tells))]
fn name_made(
    alloc: Global,
    scope: &mut Scope,
    written: &Written,
    made: Struct,
) -> Result<Struct, ExprFault>
    ensures { Leads result scope.new (struct_named scope.old written.now made) }
{
    let scalars = scalars_of_fields(scope.counts(), made.fields.as_slice());
    check_rule(alloc, scope, written, made.fields.len(), scalars)?;
    name_struct(alloc, scope, written.name.as_slice(), scalars)?;
    Ok(made)
}

// The rule of a struct of so many fields and scalars.
fn check_rule(
    alloc: Global,
    scope: &Scope,
    written: &Written,
    fields: usize,
    scalars: u32,
) -> Result<(), ExprFault>
    ensures rule { Gives result (rule_at scope.now.unit written.now.token (struct_rule (is_defined scope.now written.now.name) fields scalars)) }
    ensures new { IsOk result → is_defined scope.now written.now.name ≡ false }
{
    if scope.is_defined(alloc, written.name.as_slice())? {
        return Err(broken(scope.unit(), written.token, CheckKind::Twice));
    }
    if fields == 0 || scalars > SCALARS {
        return Err(broken(scope.unit(), written.token, CheckKind::BadSize));
    }
    Ok(())
}

// Fields from the left.
fn check_fields(
    alloc: Global,
    scope: &Scope,
    definitions: &Definitions,
    fields: &[WrittenField],
) -> Result<Items<Field>, ExprFault>
    ensures { Gives result (fields_checked scope.now definitions.now fields.now []) }
{
    let mut before = Items::new(alloc);
    for field in fields {
        before = check_field(alloc, scope, definitions, field, before)?;
    }
    Ok(before)
}

// A field behind those before it.
fn check_field(
    alloc: Global,
    scope: &Scope,
    definitions: &Definitions,
    field: &WrittenField,
    before: Items<Field>,
) -> Result<Items<Field>, ExprFault>
    ensures { Gives result (field_checked scope.now definitions.now field.now before) }
{
    let sizes = field.sizes.as_slice();
    let shape = check_shape(alloc, scope, definitions, false, &field.shape, sizes)?;
    with_field(alloc, scope.unit(), field, shape, before)
}

// A field of a shape behind those before it, among which its name is new.
fn with_field(
    alloc: Global,
    unit: u32,
    field: &WrittenField,
    shape: Shape,
    before: Items<Field>,
) -> Result<Items<Field>, ExprFault>
    ensures { Gives result (rule_at unit field.now.token (field_rule field.now.name shape before)) }
{
    let name = field.name.as_slice();
    if has_field(name, before.as_slice()) {
        return Err(broken(unit, field.token, CheckKind::Twice));
    }
    let name = ByteText::new(alloc, name)?;
    let mut fields = before;
    fields.push(Field { name, shape })?;
    Ok(fields)
}

// Whether a field of this name is there.
fn has_field(name: &[u8], fields: &[Field]) -> bool
    ensures { result ≡ has_field name.now fields.now }
{
    for field in fields {
        if name == field.name.as_slice() {
            return true;
        }
    }
    false
}
