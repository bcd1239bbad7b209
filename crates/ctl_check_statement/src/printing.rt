//! What is printed.

ghost use Rattle.std.specs.Prelude.{◌≡◌, ◌++◌, [], ◌∷◌, max, Ok};
ghost use Rattle.ctl_check_rules.specs.Faults.{Gives, rule_at};
ghost use Rattle.ctl_check_statement.specs.Printing.{text_printed, value_printed, none_printed, item_printed, printed, are_printed, print_stated};

use crate::stated::{Printed, Stated};
use ctl_base::ByteText;
use ctl_check_expr::check_value;
use ctl_check_rules::{Checked, ExprFault, broken};
use ctl_program::Definitions;
use ctl_scope::{CheckKind, Scope};
use ctl_tree::{Print, PrintItem as Written};
use ctl_types::{PrintItem, TypedStatement};
use sqlite_items::Items;
use std::alloc::Global;

/// A `print`, or its first fault.
pub(crate) fn check_print(
    alloc: Global,
    scope: &Scope,
    definitions: &Definitions,
    written: &Print,
) -> Result<Stated, ExprFault>
    ensures { Gives result (print_stated scope.now definitions.now written.now) }
{
    let items = check_items(alloc, scope, definitions, written.items.as_slice())?;
    if !are_printed(&items) {
        return Err(broken(scope.unit(), written.token, CheckKind::Mismatch));
    }
    Ok(Stated {
        form: TypedStatement::Print(items.forms),
        depth: items.depth,
    })
}

// Whether there are items, and each is a text or has a value.
fn are_printed(items: &Printed) -> bool
    ensures { result ≡ are_printed items.now }
{
    items.fit && !items.forms.is_empty()
}

// Items from the left.
fn check_items(
    alloc: Global,
    scope: &Scope,
    definitions: &Definitions,
    items: &[Written],
) -> Result<Printed, ExprFault>
    ensures { Gives result (printed scope.now definitions.now items.now none_printed) }
{
    let mut before = none_printed(alloc);
    for item in items {
        before = check_item(alloc, scope, definitions, item, before)?;
    }
    Ok(before)
}

// Before the first item.
fn none_printed(alloc: Global) -> Printed
    ensures { result ≡ none_printed }
{
    Printed {
        forms: Items::new(alloc),
        fit: true,
        depth: 0,
    }
}

// An item behind those before it.
fn check_item(
    alloc: Global,
    scope: &Scope,
    definitions: &Definitions,
    item: &Written,
    before: Printed,
) -> Result<Printed, ExprFault>
    ensures { Gives result (item_printed scope.now definitions.now item.now before) }
{
    match item {
        Written::Text(text) => with_text(alloc, before, text.text.as_slice()),
        Written::Expr(expr) => {
            let checked = check_value(alloc, scope, definitions, expr)?;
            with_value(before, checked)
        }
    }
}

// A text behind the items before it.
fn with_text(alloc: Global, before: Printed, text: &[u8]) -> Result<Printed, ExprFault>
    ensures { Gives result (Ok (text_printed before text.now)) }
{
    let text = ByteText::new(alloc, text)?;
    let fit = before.fit;
    with_item(before, PrintItem::Text(text), fit, 0)
}

// A value behind the items before it.
fn with_value(before: Printed, checked: Checked) -> Result<Printed, ExprFault>
    ensures { Gives result (Ok (value_printed before checked)) }
{
    let fit = before.fit && checked.base.is_some();
    with_item(before, PrintItem::Value(checked.form), fit, checked.depth)
}

// An item of this depth behind those before it, and whether all fit.
fn with_item(before: Printed, item: PrintItem, fit: bool, depth: u32) -> Result<Printed, ExprFault>
    ensures { Gives result (Ok (record { forms = before.forms ++ item ∷ []; fit = fit; depth = max before.depth depth })) }
{
    let mut forms = before.forms;
    forms.push(item)?;
    Ok(Printed {
        forms,
        fit,
        depth: before.depth.max(depth),
    })
}
