//! Calls and their arguments.

ghost use Rattle.std.specs.Prelude.{◌≡◌, [], ◌∷◌, ◌++◌, max, not, nat_lt, map, slice_get, get_or, Option, Some, None, Ok, Err};
ghost use Rattle.std.specs.Option.{option_copied};
ghost use Rattle.ctl_base.specs.declared.limits.TheConstants.{CALL_DEPTH};
ghost use Rattle.ctl_types.specs.Typing.{place_assignable};
ghost use Rattle.ctl_types.specs.Shapes.{extents};
ghost use Rattle.ctl_types.specs.declared.expression.Callee.TheVariants as callee;
ghost use Rattle.ctl_check_rules.specs.Shapes.{open_sizes_in};
ghost use Rattle.ctl_scope.specs.Scope.{visible};
ghost use Rattle.ctl_scope.specs.Beside.{too_deep};
ghost use Rattle.ctl_check_rules.specs.Faults.{Gives, rule_at, node_of};
ghost use Rattle.ctl_check_rules.specs.Operators.{operand};
ghost use Rattle.ctl_check_expr.specs.Calls.{behind, none_passed, with_argument, input_rule, output_rule, argument_rule, with_default, missing_rule, missing, formal_of, row_formal_of, result_sizes, result_base, call_checked, call_with, call_made, call_rule, counted_rule};

use crate::checked::{CheckedCall, Passed};
use crate::places::place_of;
use ctl_base::Node;
use ctl_base::limits::CALL_DEPTH;
use ctl_check_rules::{
    Checked, ExprFault, append_default, append_open, broken, fitting, node_of, operand,
    stated_sizes,
};
use ctl_scope::{Around, CheckKind, Scope, Variable};
use ctl_stdlib::LibraryId;
use ctl_types::{
    Argument, Base, Callee, Function, Parameter, Row, RowParam, Shape, Size, SizeList, TypedCall,
    TypedExpr, Value,
};
use sqlite_items::{Boxed, Items};
use std::alloc::Global;

/// No arguments yet.
pub(crate) fn none_passed(alloc: Global) -> Passed
    ensures { result ≡ none_passed }
{
    Passed {
        arguments: Items::new(alloc),
        sizes: SizeList::new(alloc),
        depth: 0,
    }
}

// One more argument, which gives the open sizes of its parameter.
fn with_argument(
    before: Passed,
    shape: &Shape,
    given: &[Size],
    depth: u32,
    argument: Argument,
) -> Result<Passed, ExprFault>
    ensures { Gives result (Ok (record { arguments = before.arguments ++ argument ∷ []; sizes = before.sizes ++ open_sizes_in (extents shape.now) given.now; depth = max before.depth depth })) }
{
    let Passed {
        mut arguments,
        mut sizes,
        depth: deepest,
    } = before;
    append_open(shape, given, &mut sizes)?;
    arguments.push(argument)?;
    Ok(Passed {
        arguments,
        sizes,
        depth: deepest.max(depth),
    })
}

// An input takes what fits.
fn check_input(
    unit: u32,
    node: Node,
    shape: &Shape,
    before: Passed,
    checked: Checked,
) -> Result<Passed, ExprFault>
    ensures { Gives result (rule_at unit node.token (input_rule node shape.now before checked)) }
{
    let Some(conversion) = fitting(shape, checked.sizes.as_slice(), checked.base) else {
        return Err(broken(unit, node.token, CheckKind::Mismatch));
    };
    let argument = Argument::Input(operand(checked.form, conversion), node);
    with_argument(
        before,
        shape,
        checked.sizes.as_slice(),
        checked.depth,
        argument,
    )
}

/// Whether a variable may be assigned.
pub fn is_assignable(variables: &[Option<Variable>], x: u32) -> bool
    ensures { result ≡ place_assignable (slice_get variables.now x) }
{
    match variables.get(x as usize) {
        Some(Some(variable)) => variable.is_assignable(),
        Some(None) => false,
        None => false,
    }
}

// An output takes a place that fits and may be assigned.
fn check_output(
    alloc: Global,
    unit: u32,
    variables: &[Option<Variable>],
    node: Node,
    shape: &Shape,
    before: Passed,
    checked: Checked,
) -> Result<Passed, ExprFault>
    ensures { Gives result (rule_at unit node.token (output_rule variables.now node shape.now before checked)) }
{
    let conversion = fitting(shape, checked.sizes.as_slice(), checked.base);
    let Some(place) = place_of(alloc, checked.form) else {
        return Err(broken(unit, node.token, CheckKind::NotAssignable));
    };
    if !is_assignable(variables, place.variable) {
        return Err(broken(unit, node.token, CheckKind::NotAssignable));
    }
    let Some(conversion) = conversion else {
        return Err(broken(unit, node.token, CheckKind::Mismatch));
    };
    let argument = Argument::Output(place, conversion, node);
    with_argument(
        before,
        shape,
        checked.sizes.as_slice(),
        checked.depth,
        argument,
    )
}

/// The rule of an argument for its parameter.
pub(crate) fn check_argument(
    alloc: Global,
    scope: &Scope,
    node: Node,
    is_output: bool,
    shape: &Shape,
    before: Passed,
    checked: Checked,
) -> Result<Passed, ExprFault>
    ensures { Gives result (rule_at scope.now.unit node.token (argument_rule (visible scope.now) node is_output shape.now before checked)) }
{
    if is_output {
        check_output(
            alloc,
            scope.unit(),
            scope.variables(),
            node,
            shape,
            before,
            checked,
        )
    } else {
        check_input(scope.unit(), node, shape, before, checked)
    }
}

// The default that stands for a missing argument.
fn with_default(before: Passed, shape: &Shape, default: &Value) -> Result<Passed, ExprFault>
    ensures { Gives result (Ok (with_default before shape.now default.now)) }
{
    let Passed {
        mut arguments,
        mut sizes,
        depth,
    } = before;
    append_default(shape, Some(default), &mut sizes)?;
    arguments.push(Argument::Missing)?;
    Ok(Passed {
        arguments,
        sizes,
        depth,
    })
}

// A parameter that has no argument.
fn fill_one(parameter: &Parameter, before: Passed) -> Result<Option<Passed>, ExprFault>
    ensures { Gives result (Ok (missing_rule parameter.now.is_output parameter.now.shape parameter.now.default before)) }
{
    let Some(default) = &parameter.default else {
        return Ok(None);
    };
    if parameter.is_output {
        return Ok(None);
    }
    Ok(Some(with_default(before, &parameter.shape, default)?))
}

// The parameters that have no argument, where each has a default.
fn fill(parameters: &[Parameter], first: Passed) -> Result<Option<Passed>, ExprFault>
    ensures { Gives result (Ok (missing (map formal_of parameters.now) first)) }
{
    let mut before = first;
    for parameter in parameters {
        let Some(after) = fill_one(parameter, before)? else {
            return Ok(None);
        };
        before = after;
    }
    Ok(Some(before))
}

/// The parameters behind the first.
pub(crate) fn behind<T>(parameters: &[T]) -> &[T]
    ensures { result.now ≡ behind parameters.now }
{
    match parameters.split_first() {
        Some((_, rest)) => rest,
        None => parameters,
    }
}

// Whether a function of this depth may not be called here.
fn is_too_deep(scope: &Scope, depth: u32) -> bool
    ensures { result ≡ not (nat_lt depth (too_deep scope.now.around)) }
{
    match scope.around() {
        Around::Outside => depth > CALL_DEPTH,
        Around::Head(_) => depth > CALL_DEPTH,
        Around::Body(_) => depth >= CALL_DEPTH,
    }
}

// The sizes of a result.
fn result_sizes(alloc: Global, gives: Option<&Shape>) -> Result<SizeList, ExprFault>
    ensures { Gives result (Ok (result_sizes (option_copied gives.entry))) }
{
    match gives {
        Some(shape) => Ok(stated_sizes(alloc, shape)?),
        None => Ok(SizeList::new(alloc)),
    }
}

// What a result's arrays hold; a call of what gives none has no base.
fn result_base(gives: Option<&Shape>) -> Option<Base>
    ensures { result ≡ result_base (option_copied gives.entry) }
{
    match gives {
        Some(shape) => Some(shape.base()),
        None => None,
    }
}

// A call with an argument for each parameter.
fn call_form(
    alloc: Global,
    node: Node,
    callee: Callee,
    gives: Option<&Shape>,
    depth: u32,
    after: Passed,
) -> Result<CheckedCall, ExprFault>
    ensures { Gives result (Ok (call_made node callee (option_copied gives.entry) depth after)) }
{
    let sizes = result_sizes(alloc, gives)?;
    Ok(CheckedCall {
        call: TypedCall {
            callee,
            sizes: after.sizes,
            arguments: after.arguments,
            node,
        },
        sizes,
        base: result_base(gives),
        depth: depth.max(after.depth),
        token: node.token,
    })
}

// The depth of a function of the program.
fn depth_of(scope: &Scope, k: u32) -> u32
    ensures { result ≡ get_or scope.now.depths k 0 }
{
    match scope.depths().get(k as usize) {
        Some(depth) => *depth,
        None => 0,
    }
}

/// The rule of a call of a function of the program, after its arguments.
pub(crate) fn finish_program(
    alloc: Global,
    scope: &Scope,
    token: u32,
    k: u32,
    function: &Function,
    count: usize,
    after: Passed,
) -> Result<CheckedCall, ExprFault>
    ensures { Gives result (rule_at scope.now.unit token (call_rule scope.now (node_of scope.now.unit token) (callee.Program k) (map formal_of function.now.parameters) function.now.result (get_or scope.now.depths k 0) count after)) }
{
    let depth = depth_of(scope, k);
    if is_too_deep(scope, depth) {
        return Err(broken(scope.unit(), token, CheckKind::TooDeep));
    }
    let gives = function.result.as_ref();
    let parameters = function.parameters.as_slice();
    check_count(
        alloc,
        scope.unit(),
        token,
        k,
        parameters,
        gives,
        depth,
        count,
        after,
    )
}

// Whether too many arguments are given.
fn check_count(
    alloc: Global,
    unit: u32,
    token: u32,
    k: u32,
    parameters: &[Parameter],
    gives: Option<&Shape>,
    depth: u32,
    count: usize,
    after: Passed,
) -> Result<CheckedCall, ExprFault>
    ensures { Gives result (rule_at unit token (counted_rule (node_of unit token) (callee.Program k) (map formal_of parameters.now) (option_copied gives.entry) depth count after)) }
{
    if count > parameters.len() {
        return Err(broken(unit, token, CheckKind::Arguments));
    }
    check_missing(
        alloc,
        unit,
        token,
        k,
        &parameters[count..],
        gives,
        depth,
        after,
    )
}

// The parameters that have no argument.
fn check_missing(
    alloc: Global,
    unit: u32,
    token: u32,
    k: u32,
    parameters: &[Parameter],
    gives: Option<&Shape>,
    depth: u32,
    after: Passed,
) -> Result<CheckedCall, ExprFault>
    ensures { Gives result (rule_at unit token (call_with (node_of unit token) (callee.Program k) (option_copied gives.entry) depth (missing (map formal_of parameters.now) after))) }
{
    match fill(parameters, after)? {
        Some(whole) => call_form(
            alloc,
            node_of(unit, token),
            Callee::Program(k),
            gives,
            depth,
            whole,
        ),
        None => Err(broken(unit, token, CheckKind::Arguments)),
    }
}

/// The rule of a call of a function of the library, after its arguments.
pub(crate) fn finish_library(
    alloc: Global,
    scope: &Scope,
    token: u32,
    id: LibraryId,
    row: &Row,
    count: usize,
    after: Passed,
) -> Result<CheckedCall, ExprFault>
    ensures { Gives result (rule_at scope.now.unit token (call_rule scope.now (node_of scope.now.unit token) (callee.Library id) (map row_formal_of row.now.params) row.now.result 0 count after)) }
{
    check_row_count(
        alloc,
        scope.unit(),
        token,
        id,
        row.params.as_slice(),
        row.result.as_ref(),
        count,
        after,
    )
}

// Whether too many arguments are given to a function of the library.
fn check_row_count(
    alloc: Global,
    unit: u32,
    token: u32,
    id: LibraryId,
    params: &[RowParam],
    gives: Option<&Shape>,
    count: usize,
    after: Passed,
) -> Result<CheckedCall, ExprFault>
    ensures { Gives result (rule_at unit token (counted_rule (node_of unit token) (callee.Library id) (map row_formal_of params.now) (option_copied gives.entry) 0 count after)) }
{
    if count > params.len() {
        return Err(broken(unit, token, CheckKind::Arguments));
    }
    check_row_missing(alloc, unit, token, id, &params[count..], gives, after)
}

// A function of the library has no defaults.
fn check_row_missing(
    alloc: Global,
    unit: u32,
    token: u32,
    id: LibraryId,
    params: &[RowParam],
    gives: Option<&Shape>,
    after: Passed,
) -> Result<CheckedCall, ExprFault>
    ensures { Gives result (rule_at unit token (call_with (node_of unit token) (callee.Library id) (option_copied gives.entry) 0 (missing (map row_formal_of params.now) after))) }
{
    match params.first() {
        Some(_) => Err(broken(unit, token, CheckKind::Arguments)),
        None => call_form(
            alloc,
            node_of(unit, token),
            Callee::Library(id),
            gives,
            0,
            after,
        ),
    }
}

/// A call as an expression.
pub(crate) fn call_expr(alloc: Global, call: CheckedCall) -> Result<Checked, ExprFault>
    ensures { Gives result (Ok (call_checked call)) }
{
    let CheckedCall {
        call,
        sizes,
        base,
        depth,
        token,
    } = call;
    Ok(Checked {
        form: TypedExpr::Call(Boxed::new(alloc, call)?),
        sizes,
        base,
        depth,
        token,
    })
}
