//! What the checker says of expressions. Of each form first its parts from the left, and then its own rule.

ghost use Rattle.std.specs.Prelude.{[], map, slice_get, Some, None};
ghost use Rattle.ctl_tree.specs.declared.expression.Call.{out-Call};
ghost use Rattle.ctl_tree.specs.declared.expression.Path.{out-Path};
ghost use Rattle.ctl_tree.specs.declared.expression.Chain.{out-Chain};
ghost use Rattle.ctl_types.specs.Library.{library_row};
ghost use Rattle.ctl_scope.specs.Scope.{unknown_call};
ghost use Rattle.ctl_check_rules.specs.Faults.{Gives};
ghost use Rattle.ctl_check_rules.specs.Operators.{linked, link_checked, joined, join_checked, chain_by, chained};
ghost use Rattle.ctl_check_expr.specs.Places.{steps_checked, step_checked, stepped_path, opened};
ghost use Rattle.ctl_check_expr.specs.Calls.{argument_passed, argument_checked, formal_of, row_formal_of, passed, none_passed, Refused, target_of, program_target, row_target, called};
ghost use Rattle.ctl_check_expr.specs.Checking.{typed, checked, checked_step, checked_link, checked_call, checked_path, checked_chain};

use crate::calls::{
    behind, call_expr, check_argument, finish_library, finish_program, none_passed,
};
use crate::checked::{CheckedCall, Part, Passed};
use crate::places::{check_field, check_index, check_name, opened, path_form};
use ctl_check_rules::{
    Checked, ExprFault, Joined, Linked, broken, chain_form, check_joined, check_link,
    check_literal, check_unary, logic_form, logic_of, node_of, unjoined, unlinked,
};
use ctl_program::Definitions;
use ctl_scope::{CheckKind, Meaning, Scope};
use ctl_stdlib::LibraryId;
use ctl_tree::{Call, Chain, Expr, Link, Path, Step};
use ctl_types::{Function, Logic, Parameter, RowParam, Shape, TypedExpr, row_of};
use std::alloc::Global;

/// The typed form of an expression, or its first fault.
pub fn check_expr(
    alloc: Global,
    scope: &Scope,
    definitions: &Definitions,
    expr: &Expr,
) -> Result<TypedExpr, ExprFault>
    ensures { Gives result (typed scope.now definitions.now expr.now) }
{
    let checked = check_value(alloc, scope, definitions, expr)?;
    Ok(checked.form)
}

/// What is made of an expression, or its first fault.
#[cycle(check)]
pub fn check_value(
    alloc: Global,
    scope: &Scope,
    definitions: &Definitions,
    expr: &Expr,
) -> Result<Checked, ExprFault>
    ensures { Gives result (checked scope.now definitions.now expr.now) }
{
    match expr {
        Expr::Literal(literal) => Ok(check_literal(alloc, &literal.value, literal.token)),
        Expr::Name(name) => check_name(alloc, scope, definitions, name),
        Expr::Call(call) => {
            let call = check_call(alloc, scope, definitions, call.get())?;
            call_expr(alloc, call)
        }
        Expr::Path(path) => check_path(alloc, scope, definitions, path),
        Expr::Unary(unary) => {
            let operand = check_value(alloc, scope, definitions, unary.operand.get())?;
            check_unary(alloc, scope.unit(), unary.operator, unary.token, operand)
        }
        Expr::Chain(chain) => check_chain(alloc, scope, definitions, chain),
    }
}

// A path: its root, and then its steps.
#[cycle(check)]
fn check_path(
    alloc: Global,
    scope: &Scope,
    definitions: &Definitions,
    path: &Path,
) -> Result<Checked, ExprFault>
    ensures { Gives result (checked_path scope.now definitions.now path.now) }
{
    let root = check_value(alloc, scope, definitions, path.root.get())?;
    check_path_steps(alloc, scope, definitions, path, root)
}

// The steps of a path behind its root.
#[cycle(check)]
fn check_path_steps(
    alloc: Global,
    scope: &Scope,
    definitions: &Definitions,
    path: &Path,
    root: Checked,
) -> Result<Checked, ExprFault>
    ensures { Gives result (stepped_path scope.now.unit definitions.now (map (checked_step scope.now definitions.now) (out-Path path.now).steps) root) }
{
    let part = check_steps(alloc, scope, definitions, path.steps.as_slice(), root)?;
    path_form(alloc, part)
}

/// Steps from the left.
#[cycle(check)]
pub(crate) fn check_steps(
    alloc: Global,
    scope: &Scope,
    definitions: &Definitions,
    steps: &[Step],
    root: Checked,
) -> Result<Part, ExprFault>
    ensures { Gives result (steps_checked scope.now.unit definitions.now (map (checked_step scope.now definitions.now) steps.now) (opened root)) }
{
    let mut part = opened(alloc, root);
    for step in steps {
        part = check_step(alloc, scope, definitions, step, part)?;
    }
    Ok(part)
}

#[cycle(check)]
fn check_step(
    alloc: Global,
    scope: &Scope,
    definitions: &Definitions,
    step: &Step,
    part: Part,
) -> Result<Part, ExprFault>
    ensures { Gives result (step_checked scope.now.unit definitions.now (checked_step scope.now definitions.now step.now) part) }
{
    match step {
        Step::Index(index) => {
            let checked = check_value(alloc, scope, definitions, &index.index)?;
            check_index(alloc, scope.unit(), index.token, checked, part)
        }
        Step::Field(field) => check_field(alloc, scope.unit(), definitions, field, part),
    }
}

// A chain: its first operand, and then its links.
#[cycle(check)]
fn check_chain(
    alloc: Global,
    scope: &Scope,
    definitions: &Definitions,
    chain: &Chain,
) -> Result<Checked, ExprFault>
    ensures { Gives result (checked_chain scope.now definitions.now chain.now) }
{
    let first = check_value(alloc, scope, definitions, chain.first.get())?;
    check_chain_links(alloc, scope, definitions, chain, first)
}

// The links of a chain behind its first operand.
#[cycle(check)]
fn check_chain_links(
    alloc: Global,
    scope: &Scope,
    definitions: &Definitions,
    chain: &Chain,
    first: Checked,
) -> Result<Checked, ExprFault>
    ensures { Gives result (chained scope.now.unit first (map (checked_link scope.now definitions.now) (out-Chain chain.now).links) (out-Chain chain.now).token) }
{
    check_chained(
        alloc,
        scope,
        definitions,
        chain.links.as_slice(),
        chain.token,
        first,
    )
}

// Links behind a first operand: those of `&&` or `||`, or others.
#[cycle(check)]
fn check_chained(
    alloc: Global,
    scope: &Scope,
    definitions: &Definitions,
    links: &[Link],
    token: u32,
    first: Checked,
) -> Result<Checked, ExprFault>
    ensures { Gives result (chained scope.now.unit first (map (checked_link scope.now definitions.now) links.now) token) }
{
    match links.first() {
        Some(link) => match logic_of(link.operator) {
            Some(logic) => check_logic(alloc, scope, definitions, links, token, logic, first),
            None => check_linked(alloc, scope, definitions, links, token, first),
        },
        None => Ok(first),
    }
}

#[cycle(check)]
fn check_linked(
    alloc: Global,
    scope: &Scope,
    definitions: &Definitions,
    links: &[Link],
    token: u32,
    first: Checked,
) -> Result<Checked, ExprFault>
    ensures { Gives result (chain_by scope.now.unit first (map (checked_link scope.now definitions.now) links.now) token None) }
{
    let before = unlinked(alloc, &first);
    let after = check_links(alloc, scope, definitions, links, before)?;
    chain_form(alloc, first, token, after)
}

#[cycle(check)]
fn check_links(
    alloc: Global,
    scope: &Scope,
    definitions: &Definitions,
    links: &[Link],
    first: Linked,
) -> Result<Linked, ExprFault>
    ensures { Gives result (linked scope.now.unit (map (checked_link scope.now definitions.now) links.now) first) }
{
    let mut before = first;
    for link in links {
        before = check_one_link(alloc, scope, definitions, link, before)?;
    }
    Ok(before)
}

#[cycle(check)]
fn check_one_link(
    alloc: Global,
    scope: &Scope,
    definitions: &Definitions,
    link: &Link,
    before: Linked,
) -> Result<Linked, ExprFault>
    ensures { Gives result (link_checked scope.now.unit (checked_link scope.now definitions.now link.now) before) }
{
    let operand = check_value(alloc, scope, definitions, &link.operand)?;
    check_link(scope.unit(), link.token, link.operator, before, operand)
}

#[cycle(check)]
fn check_logic(
    alloc: Global,
    scope: &Scope,
    definitions: &Definitions,
    links: &[Link],
    token: u32,
    logic: Logic,
    first: Checked,
) -> Result<Checked, ExprFault>
    ensures { Gives result (chain_by scope.now.unit first (map (checked_link scope.now definitions.now) links.now) token (Some logic)) }
{
    let before = unjoined(alloc, first)?;
    let after = check_operands(alloc, scope, definitions, links, before)?;
    Ok(logic_form(alloc, logic, token, after))
}

#[cycle(check)]
fn check_operands(
    alloc: Global,
    scope: &Scope,
    definitions: &Definitions,
    links: &[Link],
    first: Joined,
) -> Result<Joined, ExprFault>
    ensures { Gives result (joined scope.now.unit (map (checked_link scope.now definitions.now) links.now) first) }
{
    let mut before = first;
    for link in links {
        before = check_operand(alloc, scope, definitions, link, before)?;
    }
    Ok(before)
}

#[cycle(check)]
fn check_operand(
    alloc: Global,
    scope: &Scope,
    definitions: &Definitions,
    link: &Link,
    before: Joined,
) -> Result<Joined, ExprFault>
    ensures { Gives result (join_checked scope.now.unit (checked_link scope.now definitions.now link.now) before) }
{
    let operand = check_value(alloc, scope, definitions, &link.operand)?;
    check_joined(scope.unit(), link.token, before, operand)
}

/// What is made of a call, or its first fault.
#[cycle(check)]
pub fn check_call(
    alloc: Global,
    scope: &Scope,
    definitions: &Definitions,
    call: &Call,
) -> Result<CheckedCall, ExprFault>
    ensures { Gives result (checked_call scope.now definitions.now call.now) }
{
    let meaning = scope.look_up(alloc, &call.name)?;
    check_meant(alloc, scope, definitions, call, meaning)
}

// A call of what its name stands for.
#[cycle(check)]
fn check_meant(
    alloc: Global,
    scope: &Scope,
    definitions: &Definitions,
    call: &Call,
    meaning: Option<Meaning>,
) -> Result<CheckedCall, ExprFault>
    ensures { Gives result (called scope.now (target_of scope.now definitions.now (out-Call call.now).name meaning) (map (checked scope.now definitions.now) (out-Call call.now).arguments) (out-Call call.now).token) }
{
    match meaning {
        Some(Meaning::Function(k)) => check_function(alloc, scope, definitions, call, k),
        Some(Meaning::Library(id)) => check_library(alloc, scope, definitions, call, id),
        Some(Meaning::Variable(_)) => {
            check_refused(alloc, scope, definitions, call, CheckKind::NotAFunction)
        }
        Some(Meaning::Constant(_)) => {
            check_refused(alloc, scope, definitions, call, CheckKind::NotAFunction)
        }
        Some(Meaning::Struct(_)) => {
            check_refused(alloc, scope, definitions, call, CheckKind::NotAFunction)
        }
        Some(Meaning::Namespace) => {
            check_refused(alloc, scope, definitions, call, CheckKind::NotAFunction)
        }
        None => check_unknown(alloc, scope, definitions, call),
    }
}

// A call of a name that means nothing.
#[cycle(check)]
fn check_unknown(
    alloc: Global,
    scope: &Scope,
    definitions: &Definitions,
    call: &Call,
) -> Result<CheckedCall, ExprFault>
    ensures { Gives result (called scope.now (Refused (unknown_call scope.now (out-Call call.now).name)) (map (checked scope.now definitions.now) (out-Call call.now).arguments) (out-Call call.now).token) }
{
    let kind = scope.unknown_call(&call.name);
    check_refused(alloc, scope, definitions, call, kind)
}

// A call of what can't be called: its arguments are looked at before it is refused.
#[cycle(check)]
fn check_refused(
    alloc: Global,
    scope: &Scope,
    definitions: &Definitions,
    call: &Call,
    kind: CheckKind,
) -> Result<CheckedCall, ExprFault>
    ensures { Gives result (called scope.now (Refused kind) (map (checked scope.now definitions.now) (out-Call call.now).arguments) (out-Call call.now).token) }
{
    let arguments = call.arguments.as_slice();
    check_left_over(alloc, scope, definitions, arguments, none_passed(alloc))?;
    Err(broken(scope.unit(), call.token, kind))
}

// Arguments that stand for no parameter.
#[cycle(check)]
fn check_left_over(
    alloc: Global,
    scope: &Scope,
    definitions: &Definitions,
    arguments: &[Expr],
    before: Passed,
) -> Result<Passed, ExprFault>
    ensures { Gives result (passed scope.now [] (map (checked scope.now definitions.now) arguments.now) before) }
{
    for argument in arguments {
        check_value(alloc, scope, definitions, argument)?;
    }
    Ok(before)
}

// An argument for a parameter.
#[cycle(check)]
fn check_passed(
    alloc: Global,
    scope: &Scope,
    definitions: &Definitions,
    argument: &Expr,
    is_output: bool,
    shape: &Shape,
    before: Passed,
) -> Result<Passed, ExprFault>
    ensures { Gives result (argument_passed scope.now is_output shape.now (checked scope.now definitions.now argument.now) before) }
{
    let given = check_value(alloc, scope, definitions, argument)?;
    let node = node_of(scope.unit(), given.token);
    check_argument(alloc, scope, node, is_output, shape, before, given)
}

// A call of a function of the program.
#[cycle(check)]
fn check_function(
    alloc: Global,
    scope: &Scope,
    definitions: &Definitions,
    call: &Call,
    k: u32,
) -> Result<CheckedCall, ExprFault>
    ensures { Gives result (called scope.now (program_target scope.now (out-Call call.now).name k (slice_get definitions.now.functions k)) (map (checked scope.now definitions.now) (out-Call call.now).arguments) (out-Call call.now).token) }
{
    match definitions.functions().get(k as usize) {
        Some(function) => check_program(alloc, scope, definitions, call, k, function),
        None => check_unknown(alloc, scope, definitions, call),
    }
}

// A call of a function of the program that is there.
#[cycle(check)]
fn check_program(
    alloc: Global,
    scope: &Scope,
    definitions: &Definitions,
    call: &Call,
    k: u32,
    function: &Function,
) -> Result<CheckedCall, ExprFault>
    ensures { Gives result (called scope.now (program_target scope.now (out-Call call.now).name k (Some function.now)) (map (checked scope.now definitions.now) (out-Call call.now).arguments) (out-Call call.now).token) }
{
    let parameters = function.parameters.as_slice();
    let arguments = call.arguments.as_slice();
    let after = pass_all(alloc, scope, definitions, arguments, parameters)?;
    finish_program(
        alloc,
        scope,
        call.token,
        k,
        function,
        arguments.len(),
        after,
    )
}

// Arguments for the parameters of a function of the program.
#[tactic(auto, using(crate::proofs::Lists::parameters_behind))]
#[cycle(check)]
fn pass_all(
    alloc: Global,
    scope: &Scope,
    definitions: &Definitions,
    arguments: &[Expr],
    parameters: &[Parameter],
) -> Result<Passed, ExprFault>
    ensures { Gives result (passed scope.now (map formal_of parameters.now) (map (checked scope.now definitions.now) arguments.now) none_passed) }
{
    let mut before = none_passed(alloc);
    let mut rest = parameters;
    for argument in arguments {
        before = pass_one(alloc, scope, definitions, argument, rest, before)?;
        rest = behind(rest);
    }
    Ok(before)
}

#[cycle(check)]
fn pass_one(
    alloc: Global,
    scope: &Scope,
    definitions: &Definitions,
    argument: &Expr,
    parameters: &[Parameter],
    before: Passed,
) -> Result<Passed, ExprFault>
    ensures { Gives result (argument_checked scope.now (map formal_of parameters.now) (checked scope.now definitions.now argument.now) before) }
{
    match parameters.first() {
        Some(q) => check_passed(
            alloc,
            scope,
            definitions,
            argument,
            q.is_output,
            &q.shape,
            before,
        ),
        None => {
            check_value(alloc, scope, definitions, argument)?;
            Ok(before)
        }
    }
}

// A call of a function of the library.
#[cycle(check)]
fn check_library(
    alloc: Global,
    scope: &Scope,
    definitions: &Definitions,
    call: &Call,
    id: LibraryId,
) -> Result<CheckedCall, ExprFault>
    ensures { Gives result (called scope.now (row_target id (library_row id)) (map (checked scope.now definitions.now) (out-Call call.now).arguments) (out-Call call.now).token) }
{
    let row = row_of(alloc, id)?;
    let arguments = call.arguments.as_slice();
    let after = pass_row(alloc, scope, definitions, arguments, row.params.as_slice())?;
    finish_library(alloc, scope, call.token, id, &row, arguments.len(), after)
}

// Arguments for the parameters of a function of the library.
#[tactic(auto, using(crate::proofs::Lists::params_behind))]
#[cycle(check)]
fn pass_row(
    alloc: Global,
    scope: &Scope,
    definitions: &Definitions,
    arguments: &[Expr],
    params: &[RowParam],
) -> Result<Passed, ExprFault>
    ensures { Gives result (passed scope.now (map row_formal_of params.now) (map (checked scope.now definitions.now) arguments.now) none_passed) }
{
    let mut before = none_passed(alloc);
    let mut rest = params;
    for argument in arguments {
        before = pass_row_one(alloc, scope, definitions, argument, rest, before)?;
        rest = behind(rest);
    }
    Ok(before)
}

#[cycle(check)]
fn pass_row_one(
    alloc: Global,
    scope: &Scope,
    definitions: &Definitions,
    argument: &Expr,
    params: &[RowParam],
    before: Passed,
) -> Result<Passed, ExprFault>
    ensures { Gives result (argument_checked scope.now (map row_formal_of params.now) (checked scope.now definitions.now argument.now) before) }
{
    match params.first() {
        Some(q) => check_passed(
            alloc,
            scope,
            definitions,
            argument,
            q.is_output,
            &q.shape,
            before,
        ),
        None => {
            check_value(alloc, scope, definitions, argument)?;
            Ok(before)
        }
    }
}
