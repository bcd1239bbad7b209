//! Functions. Of each first its result, its parameters and its body, and then its own rule.

ghost use Rattle.std.specs.Prelude.{◌≡◌, ◌-◌, length, true, false, is_some, IsOk, IfOk};
ghost use Rattle.std.specs.Option.{option_copied};
ghost use Rattle.ctl_scope.specs.Changes.{is_defined};
ghost use Rattle.ctl_check_rules.specs.Faults.{Gives, rule_at};
ghost use Rattle.ctl_check_statement.specs.Leading.{Leads};
ghost use Rattle.ctl_check_statement.specs.Returning.{block_surely_returns};
ghost use Rattle.ctl_check_function.specs.Functions.{given_checked, result_checked, function_rule, outlined, function_made, function_named, function_stated, function_headed, function_begun, function_checked};

use crate::names::name_function;
use crate::parameters::check_parameters;
use crate::sizes::next;
use ctl_base::{ByteText, Memory};
use ctl_check_rules::{ExprFault, broken, node_of};
use ctl_check_statement::{Stated, check_block, check_shape, surely_returns};
use ctl_program::Definitions;
use ctl_scope::{CheckKind, Scope};
use ctl_tree::{Function as Written, SizedShape};
use ctl_types::{Function, Parameter, Shape};
use sqlite_items::Items;
use std::alloc::Global;

/// A function, and how deep it calls.
#[derive(Drop)]
pub struct Made {
    pub function: Function,
    pub depth: u32,
}

/// What a function has beside its parts.
#[derive(Drop)]
struct Outline {
    name: ByteText,
    variables: u32,
    depth: u32,
}

/// A function, whose name the scope has then, or its first fault. After a fault the scope is of no use.
pub fn check_function(
    alloc: Global,
    scope: &mut Scope,
    definitions: &Definitions,
    is_entry: bool,
    written: &Written,
) -> Result<Made, ExprFault>
    ensures { Leads result scope.new (function_checked scope.old definitions.now is_entry written.now) }
{
    scope.enter_head(alloc, written.name.as_slice())?;
    check_in_head(alloc, scope, definitions, is_entry, written)
}

// A function in the scope of its head.
fn check_in_head(
    alloc: Global,
    scope: &mut Scope,
    definitions: &Definitions,
    is_entry: bool,
    written: &Written,
) -> Result<Made, ExprFault>
    requires { scope.old.sees_variables ≡ true }
    ensures { Leads result scope.new (function_begun definitions.now is_entry written.now scope.old) }
{
    let gives = check_result(alloc, scope, definitions, written.result.as_ref())?;
    check_behind_result(alloc, scope, definitions, is_entry, written, gives)
}

// A function behind its result.
fn check_behind_result(
    alloc: Global,
    scope: &mut Scope,
    definitions: &Definitions,
    is_entry: bool,
    written: &Written,
    gives: Option<Shape>,
) -> Result<Made, ExprFault>
    requires { scope.old.sees_variables ≡ true }
    ensures { Leads result scope.new (function_headed definitions.now is_entry written.now gives scope.old) }
{
    let parameters = written.parameters.as_slice();
    let parameters = check_parameters(alloc, scope, definitions, is_entry, parameters)?;
    scope.enter_body(alloc, written.name.as_slice())?;
    check_body(
        alloc,
        scope,
        definitions,
        is_entry,
        written,
        gives,
        parameters,
    )
}

// A function behind its head.
fn check_body(
    alloc: Global,
    scope: &mut Scope,
    definitions: &Definitions,
    is_entry: bool,
    written: &Written,
    gives: Option<Shape>,
    parameters: Items<Parameter>,
) -> Result<Made, ExprFault>
    ensures { Leads result scope.new (function_stated definitions.now is_entry written.now gives parameters scope.old) }
{
    let body = check_block(alloc, scope, definitions, &written.body, gives.as_ref())?;
    let made = function_of(alloc, scope, written, gives, parameters, body)?;
    scope.leave_function(alloc);
    name_made(alloc, scope, is_entry, written, made)
}

// A function of its parts, in the scope after its body.
fn function_of(
    alloc: Global,
    scope: &Scope,
    written: &Written,
    gives: Option<Shape>,
    parameters: Items<Parameter>,
    body: Stated,
) -> Result<Made, Memory>
    ensures { IfOk result (λ m. m ≡ function_made written.now scope.now gives parameters body) }
{
    let outline = outline_of(alloc, scope, written, parameters.len(), body.depth)?;
    Ok(Made {
        function: Function {
            name: outline.name,
            node: node_of(scope.unit(), written.token),
            parameters,
            result: gives,
            variables: outline.variables,
            body: body.form,
        },
        depth: outline.depth,
    })
}

// What a function has beside its parts.
fn outline_of(
    alloc: Global,
    scope: &Scope,
    written: &Written,
    parameters: usize,
    depth: u32,
) -> Result<Outline, Memory>
    ensures { IfOk result (λ o. o ≡ outlined written.now scope.now parameters depth) }
{
    let depth = next(depth)?;
    let variables = number(scope.declared().saturating_sub(parameters))?;
    let name = scope.whole_name(alloc, written.name.as_slice())?;
    Ok(Outline {
        name,
        variables,
        depth,
    })
}

// A number that is kept in 32 bits. More than these can number have no room.
fn number(count: usize) -> Result<u32, Memory>
    ensures { IfOk result (λ n. n ≡ count) }
{
    match u32::try_from(count) {
        Ok(number) => Ok(number),
        Err(_) => Err(Memory),
    }
}

// A function under its name.
fn name_made(
    alloc: Global,
    scope: &mut Scope,
    is_entry: bool,
    written: &Written,
    made: Made,
) -> Result<Made, ExprFault>
    ensures { Leads result scope.new (function_named is_entry written.now scope.old made) }
{
    check_rule(
        alloc,
        scope,
        is_entry,
        written,
        made.function.result.is_some(),
    )?;
    name_function(alloc, scope, written.name.as_slice(), made.depth)?;
    Ok(made)
}

// The rule of a function that gives a value or does not.
fn check_rule(
    alloc: Global,
    scope: &Scope,
    is_entry: bool,
    written: &Written,
    gives_value: bool,
) -> Result<(), ExprFault>
    ensures rule { Gives result (rule_at scope.now.unit written.now.token (function_rule (is_defined scope.now written.now.name) gives_value (block_surely_returns written.now.body) is_entry)) }
    ensures new { IsOk result → is_defined scope.now written.now.name ≡ false }
{
    if scope.is_defined(alloc, written.name.as_slice())? {
        return Err(broken(scope.unit(), written.token, CheckKind::Twice));
    }
    if gives_value && !surely_returns(&written.body) {
        return Err(broken(scope.unit(), written.token, CheckKind::NoReturn));
    }
    if gives_value && is_entry {
        return Err(broken(scope.unit(), written.token, CheckKind::BadEntry));
    }
    Ok(())
}

// The shape of a result, and none where there is none.
fn check_result(
    alloc: Global,
    scope: &Scope,
    definitions: &Definitions,
    written: Option<&SizedShape>,
) -> Result<Option<Shape>, ExprFault>
    ensures { Gives result (result_checked scope.now definitions.now (option_copied written.entry)) }
{
    match written {
        Some(written) => {
            let sizes = written.sizes.as_slice();
            let shape = check_shape(alloc, scope, definitions, false, &written.shape, sizes)?;
            Ok(Some(shape))
        }
        None => Ok(None),
    }
}
