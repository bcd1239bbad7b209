//! The parts of instances.

ghost use Rattle.level_counts.specs.Told.{Tells};
ghost use Rattle.level_counts.specs.Parts.{function_parts};

use crate::definitions::Definitions;
use crate::statements::statement_parts;
use crate::variables::variables_of;
use ctl_base::Memory;
use ctl_types::Function;
use std::alloc::Global;

/// The parts of an instance with these open sizes.
pub fn function_parts(
    alloc: Global,
    definitions: &Definitions<'_>,
    function: &Function,
    opens: &[u32],
) -> Result<u64, Memory>
    ensures { Tells (function_parts definitions.now function.now opens.now) result }
{
    let variables = variables_of(alloc, function, opens)?;
    statement_parts(alloc, &function.body, definitions, variables.as_slice())
}
