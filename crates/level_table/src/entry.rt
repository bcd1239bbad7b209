//! The instance of an entry.

ghost use Rattle.std.specs.Prelude.{◌≡◌, IfOk, map, not};
ghost use Rattle.ctl_types.specs.declared.program.Parameter.{Parameter as ParameterForm};
ghost use Rattle.level_rules.specs.Levels.{entry_instance};
ghost use Rattle.level_table.specs.Known.{is_marked};

use crate::knowledge::{Knowledge, is_uniform};
use ctl_base::Memory;
use ctl_types::{OpenSizes, Parameter};
use level_rules::Instance;
use sqlite_items::Items;
use std::alloc::Global;

fn entry_levels(alloc: Global, parameters: &[Parameter]) -> Result<Items<bool>, Memory>
    ensures { IfOk result (λ levels. levels ≡ map (λ (q : ParameterForm). not (is_marked q)) parameters.now) }
{
    let mut levels = Items::new(alloc);
    for parameter in parameters {
        levels.push(!is_uniform(parameter))?;
    }
    Ok(levels)
}

fn levels_of(alloc: Global, known: &Knowledge<'_>, entry: u32) -> Result<Items<bool>, Memory>
    ensures { IfOk result (λ levels. levels ≡ (entry_instance known.now.functions entry).levels) }
{
    match known.function(entry) {
        Some(function) => entry_levels(alloc, function.parameters.as_slice()),
        None => Ok(Items::new(alloc)),
    }
}

/// The instance of an entry: its control is uniform, and its parameters vary that are not marked `uniform`.
pub fn entry_instance(alloc: Global, known: &Knowledge<'_>, entry: u32) -> Result<Instance, Memory>
    ensures { IfOk result (λ instance. instance ≡ entry_instance known.now.functions entry) }
{
    let levels = levels_of(alloc, known, entry)?;
    Ok(Instance {
        function: entry,
        sizes: OpenSizes::new(alloc),
        levels,
        control: false,
    })
}
