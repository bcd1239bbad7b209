//! What varies of what is to be uniform.

ghost use Rattle.std.specs.Prelude.{◌≡◌, ◌&&◌, IfOk, Option};
ghost use Rattle.level_rules.specs.Rows.{in_row, tells};
ghost use Rattle.level_rules.specs.declared.instance.Holder.TheVariants.{Variable};
ghost use Rattle.level_rules.specs.Levels.{output_faults, own_faults, faults_in};
ghost use Rattle.std.specs.Option.{option_copied};
ghost use Rattle.level_table.specs.Known.{is_marked};
ghost use Rattle.level_table.specs.Told.{first_of, first_fault};

use crate::knowledge::{Knowledge, is_uniform};
use crate::row::marked;
use ctl_base::{Memory, Node};
use ctl_types::{Function, Parameter};
use level_rules::Instance;
use std::alloc::Global;

// Whether an output is marked `uniform` and varies, as this tells.
fn is_fault(parameter: &Parameter, varies: bool) -> bool
    ensures { result ≡ ((parameter.now.is_output && is_marked parameter.now) && varies) }
{
    (parameter.is_output && is_uniform(parameter)) && varies
}

fn output_fault(parameters: &[Parameter], row: &[bool]) -> Option<Node>
    ensures { result ≡ first_of (output_faults (in_row row.now) 0 parameters.now) }
{
    for (k, parameter) in parameters.iter().enumerate() {
        if is_fault(parameter, marked(row, k + 1)) {
            return Some(parameter.node);
        }
    }
    None
}

fn own_fault(function: Option<&Function>, row: &[bool]) -> Option<Node>
    ensures { result ≡ first_of (own_faults (in_row row.now) (option_copied function.entry)) }
{
    match function {
        Some(function) => output_fault(function.parameters.as_slice(), row),
        None => None,
    }
}

fn first(nodes: &[Node]) -> Option<Node>
    ensures { result ≡ first_of nodes.now }
{
    match nodes {
        [] => None,
        [node, ..] => Some(*node),
    }
}

// The first in an instance: of its own outputs, and then of what it hands to those that it calls.
fn fault_in(
    alloc: Global,
    known: &Knowledge<'_>,
    instance: &Instance,
) -> Result<Option<Node>, Memory>
    ensures { IfOk result (λ fault. fault ≡ first_of (faults_in known.now.functions (tells known.now.rows) instance.now)) }
{
    let row = known.row_of(alloc, instance)?;
    if let Some(node) = own_fault(known.function(instance.function), row.as_slice()) {
        return Ok(Some(node));
    }
    let found = known.found_in(alloc, instance, row.as_slice())?;
    Ok(first(found.faults.as_slice()))
}

/// The first in these instances.
pub fn first_fault(
    alloc: Global,
    known: &Knowledge<'_>,
    table: &[Instance],
) -> Result<Option<Node>, Memory>
    ensures { IfOk result (λ fault. fault ≡ first_fault known.now.functions (tells known.now.rows) table.now) }
{
    for instance in table {
        let fault = fault_in(alloc, known, instance)?;
        if let Some(node) = fault {
            return Ok(Some(node));
        }
    }
    Ok(None)
}
