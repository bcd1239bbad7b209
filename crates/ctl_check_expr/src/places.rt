//! Names, and steps into values.

ghost use Rattle.std.specs.Prelude.{◌≡◌, [], max, drop, slice_get, Some, None, Ok, Err, if◌then◌else◌, bytes_eq, codes};
ghost use Rattle.std.specs.Option.{option_copied};
ghost use Rattle.ctl_types.specs.declared.expression.TypedExpr.{out-TypedExpr};
ghost use Rattle.ctl_scope.specs.Scope.{look_up, visible};
ghost use Rattle.ctl_scope.specs.declared.kind.CheckKind.TheVariants.{UnknownName};
ghost use Rattle.ctl_types.specs.declared.expression.TypedStep.{roll-TypedStep};
ghost use Rattle.ctl_types.specs.declared.expression.Argument.TheOpen as form;
ghost use Rattle.ctl_types.specs.Shapes.{base_of};
ghost use Rattle.ctl_check_rules.specs.Shapes.{stated_sizes};
ghost use Rattle.ctl_check_rules.specs.Faults.{Gives, rule_at, node_of};
ghost use Rattle.ctl_check_expr.specs.Places.{variable_checked, constant_checked, variable_rule, constant_rule, meaning_rule, name_checked, is_index_kind, stepped, index_rule, part_form, size_part, field_from, fields_of, field_step, field_found, field_in, field_rule, opened, path_checked, place, place_of, place_from};

use crate::checked::Part;
use ctl_base::ScalarKind;
use ctl_base::limits::SCALARS;
use ctl_check_rules::{Checked, ExprFault, broken, copy_sizes, node_of, scalar_kind, stated_sizes};
use ctl_program::Definitions;
use ctl_scope::{CheckKind, Meaning, Scope, Variable};
use ctl_tree::{FieldAccess, QualifiedName};
use ctl_types::{Base, Constant, Field, Size, SizeList, Struct, TypedExpr, TypedPlace, TypedStep};
use sqlite_items::{Boxed, Items, at};
use std::alloc::Global;

/// A name, by what it stands for.
pub(crate) fn check_name(
    alloc: Global,
    scope: &Scope,
    definitions: &Definitions,
    name: &QualifiedName,
) -> Result<Checked, ExprFault>
    ensures { Gives result (name_checked scope.now definitions.now name.now) }
{
    let meaning = scope.look_up(alloc, name)?;
    check_meaning(alloc, scope, definitions, name.token, meaning)
}

// What a name stands for, as a value.
fn check_meaning(
    alloc: Global,
    scope: &Scope,
    definitions: &Definitions,
    token: u32,
    meaning: Option<Meaning>,
) -> Result<Checked, ExprFault>
    ensures { Gives result (rule_at scope.now.unit token (meaning_rule scope.now definitions.now token meaning)) }
{
    let unit = scope.unit();
    match meaning {
        Some(Meaning::Variable(x)) => check_variable(alloc, scope, token, x),
        Some(Meaning::Constant(n)) => check_constant(alloc, unit, definitions, token, n),
        Some(Meaning::Function(_)) => Err(broken(unit, token, CheckKind::Mismatch)),
        Some(Meaning::Struct(_)) => Err(broken(unit, token, CheckKind::Mismatch)),
        Some(Meaning::Namespace) => Err(broken(unit, token, CheckKind::Mismatch)),
        Some(Meaning::Library(_)) => Err(broken(unit, token, CheckKind::Mismatch)),
        None => Err(broken(unit, token, CheckKind::UnknownName)),
    }
}

// A variable that is visible.
fn check_variable(alloc: Global, scope: &Scope, token: u32, x: u32) -> Result<Checked, ExprFault>
    ensures { Gives result (rule_at scope.now.unit token (variable_rule x token (slice_get (visible scope.now) x))) }
{
    check_seen(
        alloc,
        scope.unit(),
        token,
        x,
        at(scope.variables(), x as usize),
    )
}

// A variable that may be visible.
fn check_seen(
    alloc: Global,
    unit: u32,
    token: u32,
    x: u32,
    seen: Option<&Option<Variable>>,
) -> Result<Checked, ExprFault>
    ensures { Gives result (rule_at unit token (variable_rule x token (option_copied seen.entry))) }
{
    match seen {
        Some(Some(variable)) => variable_form(alloc, token, x, variable),
        Some(None) => Err(broken(unit, token, CheckKind::UnknownName)),
        None => Err(broken(unit, token, CheckKind::UnknownName)),
    }
}

// A variable with its shape.
fn variable_form(
    alloc: Global,
    token: u32,
    x: u32,
    variable: &Variable,
) -> Result<Checked, ExprFault>
    ensures { Gives result (Ok (variable_checked x token variable.now)) }
{
    let shape = variable.shape();
    Ok(Checked {
        form: TypedExpr::Variable(x),
        sizes: copy_sizes(alloc, shape.sizes.as_slice())?,
        base: Some(shape.base),
        depth: 0,
        token,
    })
}

// A constant that is there.
fn check_constant(
    alloc: Global,
    unit: u32,
    definitions: &Definitions,
    token: u32,
    n: u32,
) -> Result<Checked, ExprFault>
    ensures { Gives result (rule_at unit token (constant_rule n token (slice_get definitions.now.constants n))) }
{
    check_defined(
        alloc,
        unit,
        token,
        n,
        at(definitions.constants(), n as usize),
    )
}

// A constant that may be there.
fn check_defined(
    alloc: Global,
    unit: u32,
    token: u32,
    n: u32,
    found: Option<&Constant>,
) -> Result<Checked, ExprFault>
    ensures { Gives result (rule_at unit token (constant_rule n token (option_copied found.entry))) }
{
    match found {
        Some(constant) => constant_form(alloc, token, n, constant),
        None => Err(broken(unit, token, CheckKind::UnknownName)),
    }
}

// A constant with its shape.
fn constant_form(
    alloc: Global,
    token: u32,
    n: u32,
    constant: &Constant,
) -> Result<Checked, ExprFault>
    ensures { Gives result (Ok (constant_checked n token constant.now)) }
{
    Ok(Checked {
        form: TypedExpr::Constant(n),
        sizes: stated_sizes(alloc, &constant.shape)?,
        base: Some(constant.shape.base()),
        depth: 0,
        token,
    })
}

// Whether an index may be of this kind.
fn is_index_kind(kind: Option<ScalarKind>) -> bool
    ensures { result ≡ is_index_kind kind }
{
    match kind {
        Some(ScalarKind::Bool) => true,
        Some(ScalarKind::Int) => true,
        Some(ScalarKind::Unsigned) => true,
        Some(ScalarKind::Half) => false,
        Some(ScalarKind::Float) => false,
        None => false,
    }
}

/// The rule of an index, behind the steps before it.
pub(crate) fn check_index(
    alloc: Global,
    unit: u32,
    token: u32,
    index: Checked,
    part: Part,
) -> Result<Part, ExprFault>
    ensures { Gives result (rule_at unit token (index_rule unit token index part)) }
{
    if part.sizes.as_slice().is_empty() || !is_index_kind(scalar_kind(&index)) {
        return Err(broken(unit, token, CheckKind::Mismatch));
    }
    index_form(alloc, unit, token, index, part)
}

// An index into an array.
fn index_form(
    alloc: Global,
    unit: u32,
    token: u32,
    index: Checked,
    part: Part,
) -> Result<Part, ExprFault>
    ensures { Gives result (Ok (stepped part (roll-TypedStep (form.Index index.form (node_of unit token))) (drop 1 part.sizes) part.base (max part.depth index.depth) token)) }
{
    let sizes = inner_sizes(alloc, part.sizes.as_slice())?;
    let depth = part.depth.max(index.depth);
    let base = part.base;
    let step = TypedStep::Index(index.form, node_of(unit, token));
    stepped(part, step, sizes, base, depth, token)
}

// The sizes without the outermost.
fn inner_sizes(alloc: Global, sizes: &[Size]) -> Result<SizeList, ExprFault>
    ensures { Gives result (Ok (drop 1 sizes.now)) }
{
    match sizes.split_first() {
        Some((_, inner)) => Ok(copy_sizes(alloc, inner)?),
        None => Ok(SizeList::new(alloc)),
    }
}

// A part behind one more step.
fn stepped(
    part: Part,
    step: TypedStep,
    sizes: SizeList,
    base: Option<Base>,
    depth: u32,
    token: u32,
) -> Result<Part, ExprFault>
    ensures { Gives result (Ok (stepped part step sizes base depth token)) }
{
    let mut steps = part.steps;
    steps.push(step)?;
    Ok(Part {
        root: part.root,
        steps,
        sizes,
        base,
        depth,
        token,
    })
}

// The form of a part.
fn part_form(
    alloc: Global,
    root: TypedExpr,
    steps: Items<TypedStep>,
) -> Result<TypedExpr, ExprFault>
    ensures { Gives result (Ok (part_form root steps)) }
{
    if steps.is_empty() {
        return Ok(root);
    }
    Ok(TypedExpr::Path(Boxed::new(alloc, root)?, steps))
}

/// The rule of a field, behind the steps before it.
pub(crate) fn check_field(
    alloc: Global,
    unit: u32,
    definitions: &Definitions,
    field: &FieldAccess,
    part: Part,
) -> Result<Part, ExprFault>
    ensures { Gives result (rule_at unit field.now.token (field_rule definitions.now field.now part)) }
{
    match part.sizes.as_slice().first() {
        Some(size) => check_size(alloc, unit, field, *size, part),
        None => check_member(alloc, unit, definitions, field, part),
    }
}

// The size of an array.
fn check_size(
    alloc: Global,
    unit: u32,
    field: &FieldAccess,
    size: Size,
    part: Part,
) -> Result<Part, ExprFault>
    ensures { Gives result (rule_at unit field.now.token (if bytes_eq field.now.name (codes "size") then Ok (size_part field.now.token size part) else Err UnknownName)) }
{
    if field.name.as_slice() != b"size".as_slice() {
        return Err(broken(unit, field.token, CheckKind::UnknownName));
    }
    let depth = part.depth;
    let whole = part_form(alloc, part.root, part.steps)?;
    Ok(Part {
        root: TypedExpr::Size(Boxed::new(alloc, whole)?, size),
        steps: Items::new(alloc),
        sizes: SizeList::new(alloc),
        base: Some(Base::Scalar(ScalarKind::Int)),
        depth,
        token: field.token,
    })
}

// A field of what is no array.
fn check_member(
    alloc: Global,
    unit: u32,
    definitions: &Definitions,
    field: &FieldAccess,
    part: Part,
) -> Result<Part, ExprFault>
    ensures { Gives result (rule_at unit field.now.token (field_in definitions.now field.now part [] part.base)) }
{
    match part.base {
        Some(Base::Struct(n)) => check_struct(alloc, unit, definitions, field, n, part),
        Some(Base::Scalar(_)) => Err(broken(unit, field.token, CheckKind::UnknownName)),
        None => Err(broken(unit, field.token, CheckKind::UnknownName)),
    }
}

// A field of a struct.
fn check_struct(
    alloc: Global,
    unit: u32,
    definitions: &Definitions,
    field: &FieldAccess,
    n: u32,
    part: Part,
) -> Result<Part, ExprFault>
    ensures { Gives result (rule_at unit field.now.token (field_found field.now.token part (fields_of (slice_get definitions.now.structs n)) (field_from field.now.name 0 (fields_of (slice_get definitions.now.structs n))))) }
{
    let fields = fields_of(at(definitions.structs(), n as usize));
    check_among(alloc, unit, field, fields, part)
}

// A field among those of a struct.
fn check_among(
    alloc: Global,
    unit: u32,
    field: &FieldAccess,
    fields: &[Field],
    part: Part,
) -> Result<Part, ExprFault>
    ensures { Gives result (rule_at unit field.now.token (field_found field.now.token part fields.now (field_from field.now.name 0 fields.now))) }
{
    let number = field_number(field.name.as_slice(), fields);
    check_numbered(alloc, unit, field.token, number, fields, part)
}

// The field that is found.
fn check_numbered(
    alloc: Global,
    unit: u32,
    token: u32,
    number: Option<u32>,
    fields: &[Field],
    part: Part,
) -> Result<Part, ExprFault>
    ensures { Gives result (rule_at unit token (field_found token part fields.now number)) }
{
    match number {
        Some(number) => check_at(
            alloc,
            unit,
            token,
            number,
            at(fields, number as usize),
            part,
        ),
        None => Err(broken(unit, token, CheckKind::UnknownName)),
    }
}

// A field that is there.
fn check_at(
    alloc: Global,
    unit: u32,
    token: u32,
    number: u32,
    field: Option<&Field>,
    part: Part,
) -> Result<Part, ExprFault>
    ensures { Gives result (rule_at unit token (field_step token part number (option_copied field.entry))) }
{
    match field {
        Some(field) => field_form(alloc, token, number, field, part),
        None => Err(broken(unit, token, CheckKind::UnknownName)),
    }
}

// The fields of a struct that is there.
fn fields_of(found: Option<&Struct>) -> &[Field]
    ensures { result.now ≡ fields_of (option_copied found.entry) }
{
    match found {
        Some(found) => found.fields.as_slice(),
        None => &[],
    }
}

// The number of the first field of a name. A struct has no more fields than scalars.
fn field_number(name: &[u8], fields: &[Field]) -> Option<u32>
    ensures { result ≡ field_from name.now 0 fields.now }
{
    let mut number: u32 = 0;
    for field in fields {
        if name == field.name.as_slice() {
            return Some(number);
        }
        if number >= SCALARS {
            return None;
        }
        number += 1;
    }
    None
}

// A step to a field with its shape.
fn field_form(
    alloc: Global,
    token: u32,
    number: u32,
    field: &Field,
    part: Part,
) -> Result<Part, ExprFault>
    ensures { Gives result (Ok (stepped part (roll-TypedStep (form.Field number)) (stated_sizes field.now.shape) (Some (base_of field.now.shape)) part.depth token)) }
{
    let sizes = stated_sizes(alloc, &field.shape)?;
    let depth = part.depth;
    stepped(
        part,
        TypedStep::Field(number),
        sizes,
        Some(field.shape.base()),
        depth,
        token,
    )
}

/// The root of a path. One that is a path itself goes on with its steps.
pub(crate) fn opened(alloc: Global, checked: Checked) -> Part
    ensures { result ≡ opened checked }
{
    let Checked {
        form,
        sizes,
        base,
        depth,
        token,
    } = checked;
    match form {
        TypedExpr::Path(root, steps) => Part {
            root: root.into_inner(),
            steps,
            sizes,
            base,
            depth,
            token,
        },
        other => Part {
            root: other,
            steps: Items::new(alloc),
            sizes,
            base,
            depth,
            token,
        },
    }
}

/// The path to a part.
pub(crate) fn path_form(alloc: Global, part: Part) -> Result<Checked, ExprFault>
    ensures { Gives result (Ok (path_checked part)) }
{
    Ok(Checked {
        form: part_form(alloc, part.root, part.steps)?,
        sizes: part.sizes,
        base: part.base,
        depth: part.depth,
        token: part.token,
    })
}

/// The place that an expression is. The size of an array, a constant and a call are none.
pub fn place_of(alloc: Global, form: TypedExpr) -> Option<TypedPlace>
    ensures { result ≡ place_of form }
{
    match form {
        TypedExpr::Variable(x) => Some(TypedPlace {
            variable: x,
            steps: Items::new(alloc),
        }),
        TypedExpr::Path(root, steps) => place_from(root.into_inner(), steps),
        _ => None,
    }
}

// The place of a variable with steps.
fn place_from(root: TypedExpr, steps: Items<TypedStep>) -> Option<TypedPlace>
    ensures { result ≡ place_from steps (out-TypedExpr root) }
{
    match root {
        TypedExpr::Variable(x) => Some(TypedPlace { variable: x, steps }),
        _ => None,
    }
}
