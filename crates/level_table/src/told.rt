//! What is told of instances.

ghost use Rattle.std.specs.Prelude.{◌≡◌, ◌≤◌, ◌+◌, IfOk, map, length};
ghost use Rattle.std.specs.Option.{option_copied};
ghost use Rattle.ctl_base.specs.declared.limits.TheConstants.{INSTANCES};
ghost use Rattle.level_rules.specs.Rows.{in_row, tells};
ghost use Rattle.level_rules.specs.Reached.{number_in};
ghost use Rattle.level_table.specs.Told.{variables_from, variable_count, told};

use crate::instance::{copy_of, number_in};
use crate::knowledge::Knowledge;
use crate::row::marked;
use ctl_base::Memory;
use ctl_base::limits::INSTANCES;
use ctl_types::Function;
use level_rules::Instance;
use sqlite_items::Items;
use std::alloc::Global;

/// An instance that is reached: whether its result varies, which of its variables do, for each place whether its control
/// varies, and for each call in source order the number of the instance that is called.
#[derive(Drop)]
pub struct InstanceLevels {
    pub instance: Instance,
    pub result: bool,
    pub variables: Items<bool>,
    pub places: Items<bool>,
    pub called: Items<u32>,
}

fn variables_in(alloc: Global, row: &[bool], count: usize) -> Result<Items<bool>, Memory>
    ensures { IfOk result (λ variables. variables ≡ variables_from (in_row row.now) 0 count) }
{
    let mut variables = Items::new(alloc);
    for x in 0..count {
        variables.push(marked(row, x + 1))?;
    }
    Ok(variables)
}

fn variable_count(function: Option<&Function>) -> usize
    ensures { result ≡ variable_count (option_copied function.entry) }
{
    match function {
        Some(function) => function.parameters.as_slice().len() + function.variables as usize,
        None => 0,
    }
}

fn called(alloc: Global, table: &[Instance], calls: &[Instance]) -> Result<Items<u32>, Memory>
    requires { length table.now ≤ INSTANCES }
    ensures { IfOk result (λ numbers. numbers ≡ map (number_in table.now) calls.now) }
{
    let mut numbers = Items::new(alloc);
    for instance in calls {
        numbers.push(number_in(table, instance) as u32)?;
    }
    Ok(numbers)
}

fn told(
    alloc: Global,
    known: &Knowledge<'_>,
    table: &[Instance],
    instance: &Instance,
) -> Result<InstanceLevels, Memory>
    requires { length table.now ≤ INSTANCES }
    ensures { IfOk result (λ own. own ≡ told known.now.functions (tells known.now.rows) table.now instance.now) }
{
    let row = known.row_of(alloc, instance)?;
    let count = variable_count(known.function(instance.function));
    let variables = variables_in(alloc, row.as_slice(), count)?;
    let found = known.found_in(alloc, instance, row.as_slice())?;
    let called = called(alloc, table, found.calls.as_slice())?;
    let own = copy_of(alloc, instance)?;
    Ok(InstanceLevels {
        instance: own,
        result: marked(row.as_slice(), 0),
        variables,
        places: found.places,
        called,
    })
}

/// What is told of each of these instances.
pub fn all_told(
    alloc: Global,
    known: &Knowledge<'_>,
    table: &[Instance],
) -> Result<Items<InstanceLevels>, Memory>
    requires { length table.now ≤ INSTANCES }
    ensures { IfOk result (λ all. all ≡ map (told known.now.functions (tells known.now.rows) table.now) table.now) }
{
    let mut all = Items::new(alloc);
    for instance in table {
        let own = told(alloc, known, table, instance)?;
        all.push(own)?;
    }
    Ok(all)
}
