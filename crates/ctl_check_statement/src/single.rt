//! Statements without bodies, and how a `for` begins.

ghost use Rattle.std.specs.Prelude.{◌≡◌, Ok};
ghost use Rattle.std.specs.Option.{option_copied};
ghost use Rattle.ctl_tree.specs.declared.statement.For.{out-For};
ghost use Rattle.ctl_check_rules.specs.Faults.{Gives};
ghost use Rattle.ctl_check_statement.specs.Leading.{Leads};
ghost use Rattle.ctl_check_statement.specs.Declarations.{variable_declared, constant_declared};
ghost use Rattle.ctl_check_statement.specs.Statements.{declaration_stated, assignment_stated, call_stated, return_stated, assignment_started, started, head_with, head_stated};

use crate::declarations::{check_constant, check_variable};
use crate::forms::{declaration_made, declaration_started};
use crate::stated::{Head, Started, Stated};
use ctl_check_expr::{check_call, check_value};
use ctl_check_init::{check_assignment, check_return};
use ctl_check_rules::ExprFault;
use ctl_program::Definitions;
use ctl_scope::Scope;
use ctl_tree::{Assignment, Call, Constant, For, ForStart as WrittenStart, Return, Variable};
use ctl_types::{ForStart, Operand, Shape, TypedStatement};
use sqlite_items::Boxed;
use std::alloc::Global;

/// A variable.
#[tactic(auto, using(crate::proofs::Standing::made_leads))]
pub(crate) fn state_variable(
    alloc: Global,
    scope: &mut Scope,
    definitions: &Definitions,
    written: &Variable,
) -> Result<Stated, ExprFault>
    ensures { Leads result scope.new (declaration_stated (variable_declared scope.old definitions.now written.now)) }
{
    let declared = check_variable(alloc, scope, definitions, written)?;
    declaration_made(alloc, declared)
}

/// A constant.
#[tactic(auto, using(crate::proofs::Standing::made_leads))]
pub(crate) fn state_constant(
    alloc: Global,
    scope: &mut Scope,
    definitions: &Definitions,
    written: &Constant,
) -> Result<Stated, ExprFault>
    ensures { Leads result scope.new (declaration_stated (constant_declared scope.old definitions.now written.now)) }
{
    let declared = check_constant(alloc, scope, definitions, written)?;
    declaration_made(alloc, declared)
}

/// An assignment.
pub(crate) fn state_assignment(
    alloc: Global,
    scope: &Scope,
    definitions: &Definitions,
    written: &Assignment,
) -> Result<Stated, ExprFault>
    ensures { Gives result (assignment_stated scope.now definitions.now written.now) }
{
    let given = check_assignment(alloc, scope, definitions, written)?;
    let depth = given.depth;
    let assignment = Boxed::new(alloc, given.assignment)?;
    Ok(Stated {
        form: TypedStatement::Assign(assignment),
        depth,
    })
}

/// A call.
pub(crate) fn state_call(
    alloc: Global,
    scope: &Scope,
    definitions: &Definitions,
    written: &Call,
) -> Result<Stated, ExprFault>
    ensures { Gives result (call_stated scope.now definitions.now written.now) }
{
    let checked = check_call(alloc, scope, definitions, written)?;
    let depth = checked.depth;
    let call = Boxed::new(alloc, checked.call)?;
    Ok(Stated {
        form: TypedStatement::Call(call),
        depth,
    })
}

/// A `return` in a function that gives a value of this shape, or none.
pub(crate) fn state_return(
    alloc: Global,
    scope: &Scope,
    definitions: &Definitions,
    gives: Option<&Shape>,
    written: &Return,
) -> Result<Stated, ExprFault>
    ensures { Gives result (return_stated scope.now definitions.now (option_copied gives.entry) written.now) }
{
    let given = check_return(alloc, scope, definitions, gives, written)?;
    let value = boxed(alloc, given.value)?;
    Ok(Stated {
        form: TypedStatement::Return(value),
        depth: given.depth,
    })
}

// A value that may be absent, as a statement holds it.
fn boxed(alloc: Global, value: Option<Operand>) -> Result<Option<Boxed<Operand>>, ExprFault>
    ensures { Gives result (Ok value) }
{
    match value {
        Some(operand) => Ok(Some(Boxed::new(alloc, operand)?)),
        None => Ok(None),
    }
}

// ---- how a `for` begins

/// How a `for` begins, its test, and the assignment after each turn.
#[tactic(auto, using(crate::proofs::Standing::gives_leads))]
pub(crate) fn check_head(
    alloc: Global,
    scope: &mut Scope,
    definitions: &Definitions,
    written: &For,
) -> Result<Head, ExprFault>
    ensures { Leads result scope.new (head_stated definitions.now (out-For written.now).start (out-For written.now).test (out-For written.now).next scope.old) }
{
    let first = check_start(alloc, scope, definitions, &written.start)?;
    check_head_with(alloc, scope, definitions, written, first)
}

// The test of a `for`, and the assignment after each turn.
fn check_head_with(
    alloc: Global,
    scope: &Scope,
    definitions: &Definitions,
    written: &For,
    first: Started,
) -> Result<Head, ExprFault>
    ensures { Gives result (head_with scope.now definitions.now (out-For written.now).test (out-For written.now).next first) }
{
    let test = check_value(alloc, scope, definitions, &written.test)?;
    let next = check_assignment(alloc, scope, definitions, &written.next)?;
    Ok(Head { first, test, next })
}

// How a `for` begins: it declares a variable, or assigns.
#[tactic(auto, using(crate::proofs::Standing::gives_leads))]
fn check_start(
    alloc: Global,
    scope: &mut Scope,
    definitions: &Definitions,
    written: &WrittenStart,
) -> Result<Started, ExprFault>
    ensures { Leads result scope.new (started definitions.now written.now scope.old) }
{
    match written {
        WrittenStart::Variable(variable) => {
            let declared = check_variable(alloc, scope, definitions, variable)?;
            Ok(declaration_started(declared))
        }
        WrittenStart::Assignment(assignment) => start_by(alloc, scope, definitions, assignment),
    }
}

// A `for` that begins with an assignment.
fn start_by(
    alloc: Global,
    scope: &Scope,
    definitions: &Definitions,
    written: &Assignment,
) -> Result<Started, ExprFault>
    ensures { Gives result (assignment_started scope.now definitions.now written.now) }
{
    let given = check_assignment(alloc, scope, definitions, written)?;
    Ok(Started {
        form: ForStart::Assign(given.assignment),
        depth: given.depth,
    })
}
