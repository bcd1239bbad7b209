//! The cells of constants and of instances.

ghost use Rattle.std.specs.Prelude.{◌≡◌, ◌||◌, map, get_or, false, IfOk};
ghost use Rattle.ctl_types.specs.declared.program.Constant.{Constant as ConstantForm};
ghost use Rattle.ctl_types.specs.Shapes.{struct_counts};
ghost use Rattle.level_counts.specs.Told.{told, total, Tells};
ghost use Rattle.level_counts.specs.Shapes.{scalars_in, stated_shape};
ghost use Rattle.level_counts.specs.Cells.{slot_scalars, where_true, varying_from, told_cells, more_cells, constant_cells, function_cells};

use crate::definitions::Definitions;
use crate::told::and;
use crate::value::{ValueShape, value_if, value_of_shape};
use crate::variables::variables_of;
use ctl_base::Memory;
use ctl_types::{Constant, Function};
use std::alloc::Global;

/// How many cells there are, and how many of them vary. Both numbers stop at the greatest of 64 bits.
#[derive(Clone, Copy)]
pub struct Cells {
    pub total: u64,
    pub varying: u64,
}

/// These cells and those.
pub fn more_cells(a: Cells, b: Cells) -> Cells
    ensures { result ≡ told_cells (more_cells a b) }
{
    Cells {
        total: and(a.total, b.total),
        varying: and(a.varying, b.varying),
    }
}

fn constant_scalars(
    alloc: Global,
    definitions: &Definitions<'_>,
    constant: &Constant,
) -> Result<u64, Memory>
    ensures { Tells (scalars_in (struct_counts definitions.now.structs) (stated_shape constant.now.shape)) result }
{
    let value = value_of_shape(alloc, &constant.shape)?;
    Ok(definitions.scalars(&value))
}

fn constants_scalars(
    alloc: Global,
    definitions: &Definitions<'_>,
    constants: &[Constant],
) -> Result<u64, Memory>
    ensures { Tells (total (map (λ (c : ConstantForm). scalars_in (struct_counts definitions.now.structs) (stated_shape c.shape)) constants.now)) result }
{
    let mut scalars = 0;
    for constant in constants {
        let more = constant_scalars(alloc, definitions, constant)?;
        scalars = and(scalars, more);
    }
    Ok(scalars)
}

/// The cells of the constants, none of which varies.
pub fn constant_cells(alloc: Global, definitions: &Definitions<'_>) -> Result<Cells, Memory>
    ensures { IfOk result (λ cells. cells ≡ told_cells (constant_cells definitions.now)) }
{
    let total = constants_scalars(alloc, definitions, definitions.constants())?;
    Ok(Cells { total, varying: 0 })
}

fn slot_scalars(definitions: &Definitions<'_>, slot: &Option<ValueShape>) -> u64
    ensures { result ≡ told (slot_scalars (struct_counts definitions.now.structs) slot.now) }
{
    match slot {
        Some(value) => definitions.scalars(value),
        None => 0,
    }
}

fn all_scalars(definitions: &Definitions<'_>, table: &[Option<ValueShape>]) -> u64
    ensures { result ≡ told (total (map (slot_scalars (struct_counts definitions.now.structs)) table.now)) }
{
    let mut scalars = 0;
    for slot in table {
        scalars = and(scalars, slot_scalars(definitions, slot));
    }
    scalars
}

fn where_true(holds: bool, count: u64) -> u64
    ensures { result ≡ where_true holds count }
{
    if holds { count } else { 0 }
}

// Whether a variable varies.
fn varies_at(control: bool, variables: &[bool], number: usize) -> bool
    ensures { result ≡ (control || get_or variables.now number false) }
{
    if number < variables.len() {
        control || variables[number]
    } else {
        control
    }
}

fn varying_scalars(
    definitions: &Definitions<'_>,
    control: bool,
    variables: &[bool],
    table: &[Option<ValueShape>],
) -> u64
    ensures { result ≡ told (varying_from (struct_counts definitions.now.structs) (λ x. control || get_or variables.now x false) 0 table.now) }
{
    let mut scalars = 0;
    for (number, slot) in table.iter().enumerate() {
        let varies = varies_at(control, variables, number);
        scalars = and(scalars, where_true(varies, slot_scalars(definitions, slot)));
    }
    scalars
}

/// The cells of an instance with these open sizes in which this control, these variables and this result vary.
pub fn function_cells(
    alloc: Global,
    definitions: &Definitions<'_>,
    function: &Function,
    opens: &[u32],
    control: bool,
    variables: &[bool],
    varies: bool,
) -> Result<Cells, Memory>
    ensures { IfOk result (λ cells. cells ≡ told_cells (function_cells definitions.now.structs function.now opens.now control (λ x. get_or variables.now x false) varies)) }
{
    let table = variables_of(alloc, function, opens)?;
    let value = value_if(alloc, &function.result)?;
    let own = definitions.scalars(&value);
    let all = all_scalars(definitions, table.as_slice());
    let varying = varying_scalars(definitions, control, variables, table.as_slice());
    Ok(Cells {
        total: and(all, own),
        varying: and(varying, where_true(control || varies, own)),
    })
}
