//! The sizes of arrays as declarations write them.

ghost use Rattle.std.specs.Prelude.{◌≡◌, []};
ghost use Rattle.ctl_types.specs.Shapes.{base_scalars};
ghost use Rattle.ctl_check_rules.specs.Faults.{Gives, rule_at};
ghost use Rattle.ctl_check_size.specs.Numbers.{size_number};
ghost use Rattle.ctl_check_size.specs.Sizes.{with_stated, stated_rule, open_rule, size_checked, extents_checked};

use crate::extents::Extents;
use crate::numbers::size_number;
use ctl_base::limits::SCALARS;
use ctl_check_expr::check_value;
use ctl_check_rules::{Checked, ExprFault, broken};
use ctl_program::Definitions;
use ctl_scope::{CheckKind, Scope};
use ctl_tree::ArraySize;
use ctl_types::{Base, Extent};
use sqlite_items::Items;
use std::alloc::Global;

/// The extents of a declaration whose arrays hold this, or the first fault in its sizes: that of an expression, or
/// BadSize at the `[` of a size that breaks the rules.
pub fn check_extents(
    alloc: Global,
    scope: &Scope,
    definitions: &Definitions,
    may_be_open: bool,
    base: Base,
    sizes: &[ArraySize],
) -> Result<Extents, ExprFault>
    ensures { Gives result (extents_checked scope.now definitions.now may_be_open base sizes.now) }
{
    let mut before = unsized_extents(alloc, scope.counts(), base);
    for size in sizes {
        before = check_size(alloc, scope, definitions, may_be_open, size, before)?;
    }
    Ok(before)
}

// Before the first size.
fn unsized_extents(alloc: Global, counts: &[u32], base: Base) -> Extents
    ensures { result ≡ record { extents = []; scalars = base_scalars counts.now base } }
{
    Extents {
        extents: Items::new(alloc),
        scalars: base_scalars(counts, base),
    }
}

// How many scalars arrays hold in each element.
fn base_scalars(counts: &[u32], base: Base) -> u32
    ensures { result ≡ base_scalars counts.now base }
{
    match base {
        Base::Scalar(_) => 1,
        Base::Struct(n) => match counts.get(n as usize) {
            Some(count) => *count,
            None => 0,
        },
    }
}

// A size: its expression, and then its own rule.
fn check_size(
    alloc: Global,
    scope: &Scope,
    definitions: &Definitions,
    may_be_open: bool,
    size: &ArraySize,
    before: Extents,
) -> Result<Extents, ExprFault>
    ensures { Gives result (size_checked scope.now definitions.now may_be_open size.now.token size.now.size before) }
{
    match &size.size {
        Some(expr) => {
            let checked = check_value(alloc, scope, definitions, expr)?;
            check_stated(
                alloc,
                scope.unit(),
                size.token,
                definitions,
                &checked,
                before,
            )
        }
        None => check_open(scope.unit(), size.token, may_be_open, before),
    }
}

// A size that an expression states.
fn check_stated(
    alloc: Global,
    unit: u32,
    token: u32,
    definitions: &Definitions,
    checked: &Checked,
    before: Extents,
) -> Result<Extents, ExprFault>
    ensures { Gives result (rule_at unit token (stated_rule before (size_number definitions.now checked.now))) }
{
    match size_number(alloc, definitions, checked)? {
        Some(n) => with_stated(unit, token, before, n),
        None => Err(broken(unit, token, CheckKind::BadSize)),
    }
}

// One more stated extent.
fn with_stated(unit: u32, token: u32, before: Extents, n: u32) -> Result<Extents, ExprFault>
    ensures { Gives result (rule_at unit token (with_stated before n)) }
{
    let scalars = before.scalars as u64 * n as u64;
    if scalars > SCALARS as u64 {
        return Err(broken(unit, token, CheckKind::BadSize));
    }
    let mut extents = before.extents;
    extents.push(Extent::Stated(n))?;
    Ok(Extents {
        extents,
        scalars: scalars as u32,
    })
}

// One more open extent.
fn check_open(
    unit: u32,
    token: u32,
    may_be_open: bool,
    before: Extents,
) -> Result<Extents, ExprFault>
    ensures { Gives result (rule_at unit token (open_rule may_be_open before)) }
{
    if !may_be_open {
        return Err(broken(unit, token, CheckKind::BadSize));
    }
    let Extents {
        mut extents,
        scalars,
    } = before;
    extents.push(Extent::Unstated)?;
    Ok(Extents { extents, scalars })
}
