//! The instances that an entry reaches.

ghost use Rattle.std.specs.Prelude.{◌≤◌, length};
ghost use Rattle.ctl_base.specs.declared.limits.TheConstants.{INSTANCES};
ghost use Rattle.level_rules.specs.Rows.{tells};
ghost use Rattle.level_rules.specs.Levels.{calls_in};
ghost use Rattle.level_rules.specs.Reached.{visit, reached};
ghost use Rattle.level_table.specs.Table.{Visits, Reaches};

use crate::instance::{copy_of, is_among};
use crate::knowledge::Knowledge;
use ctl_base::Memory;
use ctl_base::limits::INSTANCES;
use level_rules::Instance;
use sqlite_items::Items;
use std::alloc::{AllocError, Global};

/// Why instances are not listed.
#[derive(Clone, Copy, PartialEq, Eq)]
pub enum TableFault {
    TooManyInstances,
    Memory,
}

impl From<Memory> for TableFault {
    ghost use Rattle.std.specs.Prelude.{◌≡◌};
    ghost use Rattle.level_table.specs.declared.reaching.TableFault.TheVariants.{Memory};

    ghost from_gives = { λ _ e. e ≡ Memory };

    fn from(_: Memory) -> TableFault {
        TableFault::Memory
    }
}

impl From<AllocError> for TableFault {
    ghost use Rattle.std.specs.Prelude.{◌≡◌};
    ghost use Rattle.level_table.specs.declared.reaching.TableFault.TheVariants.{Memory};

    ghost from_gives = { λ _ e. e ≡ Memory };

    fn from(_: AllocError) -> TableFault {
        TableFault::Memory
    }
}

// Lists an instance, if it is not listed, and behind it what its calls reach.
fn visit(
    alloc: Global,
    known: &Knowledge<'_>,
    depth: u64,
    instance: &Instance,
    table: &mut Items<Instance>,
) -> Result<(), TableFault>
    requires { length table.old ≤ INSTANCES }
    ensures { Visits table.new (visit (calls_in known.now.functions (tells known.now.rows)) depth table.old instance.now) result }
{
    if depth == 0 {
        return Ok(());
    }
    if is_among(table.as_slice(), instance) {
        return Ok(());
    }
    if table.len() == INSTANCES as usize {
        return Err(TableFault::TooManyInstances);
    }
    let own = copy_of(alloc, instance)?;
    table.push(own)?;
    let calls = known.calls_in(alloc, instance)?;
    for called in calls.as_slice() {
        if let Err(e) = visit(alloc, known, depth - 1, called, table) {
            return Err(e);
        }
    }
    Ok(())
}

/// The instances that an entry reaches: its own and, for each call in a reached one in source order, the one called, depth
/// first and each once.
pub fn reach(
    alloc: Global,
    known: &Knowledge<'_>,
    entry: &Instance,
) -> Result<Items<Instance>, TableFault>
    ensures { Reaches (reached (calls_in known.now.functions (tells known.now.rows)) entry.now) result }
{
    let mut table = Items::new(alloc);
    visit(
        alloc,
        known,
        u64::from(entry.function) + 1,
        entry,
        &mut table,
    )?;
    Ok(table)
}
