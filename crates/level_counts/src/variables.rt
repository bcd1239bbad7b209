//! The shapes of the variables of a function in an instance.

ghost use Rattle.std.specs.Prelude.{◌≡◌, ◌++◌, ◌≤◌, ◌+◌, length, map, min, replicate, slice_set, None, Some, IfOk, OnOk};
ghost use Rattle.ctl_types.specs.Shapes.{local, extents, open_count};
ghost use Rattle.level_counts.specs.Shapes.{value_shape, declared, start_declared, statement_declared, in_turn, arm_declared, otherwise_statement_declared, parameter_table, variables_of};

use crate::value::{ValueShape, append_sizes, item_in, value_of_local};
use ctl_base::Memory;
use ctl_types::{Arm, Declaration, ForStart, Function, OpenSizes, Parameter, TypedStatement};
use sqlite_items::{Boxed, Items};
use std::alloc::Global;

/// The shapes of variables by their numbers, as far as they are declared.
pub type Table = Items<Option<ValueShape>>;

// A shape that is put at a number, where there is one.
fn put(table: &mut Table, number: usize, value: ValueShape)
    ensures { table.new ≡ slice_set table.old number (Some value) }
{
    if number < table.len() {
        table.set(number, Some(value));
    }
}

fn declare(
    alloc: Global,
    declaration: &Declaration,
    opens: &[u32],
    table: &mut Table,
) -> Result<(), Memory>
    ensures { OnOk result (table.new ≡ declared opens.now declaration.now table.old) }
{
    let value = value_of_local(alloc, &declaration.shape, opens)?;
    put(table, declaration.variable as usize, value);
    Ok(())
}

fn declare_start(
    alloc: Global,
    start: &ForStart,
    opens: &[u32],
    table: &mut Table,
) -> Result<(), Memory>
    ensures { OnOk result (table.new ≡ start_declared opens.now start.now table.old) }
{
    match start {
        ForStart::Declare(declaration) => declare(alloc, declaration, opens, table),
        ForStart::Assign(_) => Ok(()),
    }
}

#[cycle(declare)]
fn declare_in(
    alloc: Global,
    statement: &TypedStatement,
    opens: &[u32],
    table: &mut Table,
) -> Result<(), Memory>
    ensures { OnOk result (table.new ≡ statement_declared opens.now statement.now table.old) }
{
    match statement {
        TypedStatement::Empty => Ok(()),
        TypedStatement::Block(statements) => declare_all(
            alloc,
            statements.as_slice(),
            opens,
            table,
        ),
        TypedStatement::Declare(declaration) => declare(alloc, declaration.get(), opens, table),
        TypedStatement::Assign(_) => Ok(()),
        TypedStatement::Call(_) => Ok(()),
        TypedStatement::If(arms, otherwise) => {
            declare_arms(alloc, arms.as_slice(), opens, table)?;
            declare_otherwise(alloc, otherwise, opens, table)
        }
        TypedStatement::While(_, body, _) => declare_in(alloc, body.get(), opens, table),
        TypedStatement::For(start, _, _, body, _) => {
            declare_start(alloc, start.get(), opens, table)?;
            declare_in(alloc, body.get(), opens, table)
        }
        TypedStatement::Return(_) => Ok(()),
        TypedStatement::Print(_) => Ok(()),
    }
}

#[cycle(declare)]
fn declare_all(
    alloc: Global,
    statements: &[TypedStatement],
    opens: &[u32],
    table: &mut Table,
) -> Result<(), Memory>
    ensures { OnOk result (table.new ≡ in_turn (map (statement_declared opens.now) statements.now) table.old) }
{
    for statement in statements {
        declare_in(alloc, statement, opens, table)?;
    }
    Ok(())
}

#[cycle(declare)]
fn declare_arms(alloc: Global, arms: &[Arm], opens: &[u32], table: &mut Table) -> Result<(), Memory>
    ensures { OnOk result (table.new ≡ in_turn (map (arm_declared opens.now) arms.now) table.old) }
{
    for arm in arms {
        declare_in(alloc, arm.body.get(), opens, table)?;
    }
    Ok(())
}

#[cycle(declare)]
fn declare_otherwise(
    alloc: Global,
    otherwise: &Option<Boxed<TypedStatement>>,
    opens: &[u32],
    table: &mut Table,
) -> Result<(), Memory>
    ensures { OnOk result (table.new ≡ otherwise_statement_declared opens.now otherwise.now table.old) }
{
    match otherwise {
        Some(statement) => declare_in(alloc, statement.get(), opens, table),
        None => Ok(()),
    }
}

/// A parameter, and how many open sizes stand before the next, where no more are counted than there are.
#[derive(Drop)]
struct Placed {
    value: ValueShape,
    next: usize,
}

fn place(
    alloc: Global,
    parameter: &Parameter,
    opens: &[u32],
    number: usize,
) -> Result<Placed, Memory>
    requires { number ≤ length opens.now }
    ensures value { IfOk result (λ placed. placed.value ≡ value_shape opens.now (local number parameter.now.shape)) }
    ensures next { IfOk result (λ placed. placed.next ≡ min (number + open_count (extents parameter.now.shape)) (length opens.now)) }
{
    let mut sizes = OpenSizes::new(alloc);
    let next = append_sizes(&parameter.shape, opens, number, &mut sizes)?;
    let item = item_in(&parameter.shape);
    Ok(Placed {
        value: ValueShape { sizes, item },
        next,
    })
}

fn place_parameters(alloc: Global, parameters: &[Parameter], opens: &[u32]) -> Result<Table, Memory>
    ensures { IfOk result (λ table. table ≡ parameter_table opens.now 0 parameters.now) }
{
    let mut table = Items::new(alloc);
    let mut number = 0;
    for parameter in parameters {
        let placed = place(alloc, parameter, opens, number)?;
        table.push(Some(placed.value))?;
        number = placed.next;
    }
    Ok(table)
}

fn add_slots(table: &mut Table, count: u32) -> Result<(), Memory>
    ensures { OnOk result (table.new ≡ table.old ++ replicate count None) }
{
    for _ in 0..count {
        table.push(None)?;
    }
    Ok(())
}

/// The variables of a function in an instance with these open sizes.
pub fn variables_of(alloc: Global, function: &Function, opens: &[u32]) -> Result<Table, Memory>
    ensures { IfOk result (λ table. table ≡ variables_of function.now opens.now) }
{
    let mut table = place_parameters(alloc, function.parameters.as_slice(), opens)?;
    add_slots(&mut table, function.variables)?;
    declare_in(alloc, &function.body, opens, &mut table)?;
    Ok(table)
}
