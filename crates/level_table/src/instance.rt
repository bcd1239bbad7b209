//! Whether two instances are one.

ghost use Rattle.std.specs.Prelude.{◌≡◌, ◌≤◌, IfOk, length};
ghost use Rattle.level_rules.specs.Reached.{same, same_level, same_levels, same_sizes, is_among, number_in};

use ctl_base::Memory;
use ctl_types::OpenSizes;
use level_rules::Instance;
use sqlite_items::Items;
use std::alloc::Global;

fn same_level(a: bool, b: bool) -> bool
    ensures { result ≡ same_level a b }
{
    a == b
}

#[tactic(auto, using(crate::proofs::Equal::levels_differ, crate::proofs::Equal::levels_end))]
fn same_levels(a: &[bool], b: &[bool]) -> bool
    ensures { result ≡ same_levels a.now b.now }
{
    if a.len() != b.len() {
        return false;
    }
    let mut k = 0;
    'each: while k < a.len() {
        if !same_level(a[k], b[k]) {
            return false;
        }
        k += 1;
    }
    true
}

#[tactic(auto, using(crate::proofs::Equal::sizes_differ, crate::proofs::Equal::sizes_end))]
fn same_sizes(a: &[u32], b: &[u32]) -> bool
    ensures { result ≡ same_sizes a.now b.now }
{
    if a.len() != b.len() {
        return false;
    }
    let mut k = 0;
    'each: while k < a.len() {
        if a[k] != b[k] {
            return false;
        }
        k += 1;
    }
    true
}

/// Whether they have one function, the same sizes and levels, and the same control.
pub fn same(a: &Instance, b: &Instance) -> bool
    ensures { result ≡ same a.now b.now }
{
    (a.function == b.function && same_sizes(a.sizes.as_slice(), b.sizes.as_slice()))
        && (same_levels(a.levels.as_slice(), b.levels.as_slice())
            && same_level(a.control, b.control))
}

/// Whether an instance is among these.
pub fn is_among(table: &[Instance], instance: &Instance) -> bool
    ensures { result ≡ is_among table.now instance.now }
{
    for own in table {
        if same(own, instance) {
            return true;
        }
    }
    false
}

/// The number of an instance among these, or how many they are.
pub fn number_in(table: &[Instance], instance: &Instance) -> usize
    ensures number { result ≡ number_in table.now instance.now }
    ensures within { result ≤ length table.now }
{
    let mut number = 0;
    for own in table {
        if same(own, instance) {
            return number;
        }
        number += 1;
    }
    number
}

fn copied_sizes(alloc: Global, sizes: &[u32]) -> Result<OpenSizes, Memory>
    ensures { IfOk result (λ copy. copy ≡ sizes.now) }
{
    let mut copy = OpenSizes::new(alloc);
    for size in sizes {
        copy.push(*size)?;
    }
    Ok(copy)
}

pub fn copy_of(alloc: Global, instance: &Instance) -> Result<Instance, Memory>
    ensures { IfOk result (λ copy. copy ≡ instance.now) }
{
    let sizes = copied_sizes(alloc, instance.sizes.as_slice())?;
    let levels = Items::from_slice(alloc, instance.levels.as_slice())?;
    Ok(Instance {
        function: instance.function,
        sizes,
        levels,
        control: instance.control,
    })
}
