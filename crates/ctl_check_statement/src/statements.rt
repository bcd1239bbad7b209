//! What the checker says of statements. Of each first its parts from the left, the bodies among them, and then its own
//! rule.

ghost use Rattle.std.specs.Prelude.{◌≡◌, map, Some};
ghost use Rattle.std.specs.Option.{option_copied, option_map};
ghost use Rattle.ctl_tree.specs.declared.statement.For.{out-For};
ghost use Rattle.ctl_check_rules.specs.Faults.{Gives};
ghost use Rattle.ctl_check_statement.specs.Leading.{Leads};
ghost use Rattle.ctl_check_statement.specs.Statements.{own_scope, next_stated, all_stated, no_statements, all_armed, no_arms, otherwise_stated, for_parts, stated, block_stated, arm_stated, branch_stated, while_loop_stated, for_loop_stated};

use crate::forms::{
    are_tested, block_made, check_for_test, check_while_test, else_made, if_made, no_arms,
    no_statements, with_arm, with_statement,
};
use crate::printing::check_print;
use crate::single::{
    check_head, state_assignment, state_call, state_constant, state_return, state_variable,
};
use crate::stated::{Arms, Stated, Statements};
use ctl_check_expr::check_value;
use ctl_check_rules::{ExprFault, broken};
use ctl_program::Definitions;
use ctl_scope::{CheckKind, Scope};
use ctl_tree::{Arm, Block, For, If, Statement, While};
use ctl_types::{Shape, TypedStatement};
use sqlite_items::Boxed;
use std::alloc::Global;

/// A statement in a function that gives a value of this shape, or none; or its first fault. What it declares is seen
/// in the scope behind it.
#[tactic(auto, using(crate::proofs::Standing::gives_leads))]
#[cycle(check)]
pub fn check_statement(
    alloc: Global,
    scope: &mut Scope,
    definitions: &Definitions,
    statement: &Statement,
    gives: Option<&Shape>,
) -> Result<Stated, ExprFault>
    ensures { Leads result scope.new (stated definitions.now (option_copied gives.entry) statement.now scope.old) }
{
    match statement {
        Statement::Block(block) => check_block(alloc, scope, definitions, block, gives),
        Statement::Constant(constant) => state_constant(alloc, scope, definitions, constant.get()),
        Statement::Variable(variable) => state_variable(alloc, scope, definitions, variable.get()),
        Statement::Assignment(assignment) => {
            state_assignment(alloc, scope, definitions, assignment.get())
        }
        Statement::Call(call) => state_call(alloc, scope, definitions, call.get()),
        Statement::If(branch) => check_if(alloc, scope, definitions, branch, gives),
        Statement::While(written) => check_while(alloc, scope, definitions, written.get(), gives),
        Statement::For(written) => check_for(alloc, scope, definitions, written.get(), gives),
        Statement::Return(leave) => state_return(alloc, scope, definitions, gives, leave.get()),
        Statement::Print(print) => check_print(alloc, scope, definitions, print),
        Statement::Empty(_) => Ok(Stated {
            form: TypedStatement::Empty,
            depth: 0,
        }),
    }
}

/// A block in a function that gives a value of this shape, or none; or its first fault. It is a scope of its own.
#[cycle(check)]
pub fn check_block(
    alloc: Global,
    scope: &mut Scope,
    definitions: &Definitions,
    block: &Block,
    gives: Option<&Shape>,
) -> Result<Stated, ExprFault>
    ensures { Leads result scope.new (block_stated definitions.now (option_copied gives.entry) block.now scope.old) }
{
    scope.enter(alloc)?;
    let statements = block.statements.as_slice();
    let inside = check_statements(alloc, scope, definitions, statements, gives)?;
    scope.leave();
    Ok(block_made(inside))
}

// Statements one after another.
#[cycle(check)]
fn check_statements(
    alloc: Global,
    scope: &mut Scope,
    definitions: &Definitions,
    statements: &[Statement],
    gives: Option<&Shape>,
) -> Result<Statements, ExprFault>
    ensures { Leads result scope.new (all_stated (map (stated definitions.now (option_copied gives.entry)) statements.now) (record { made = no_statements; scope = scope.old })) }
{
    let mut before = no_statements(alloc);
    for statement in statements {
        before = check_next(alloc, scope, definitions, statement, gives, before)?;
    }
    Ok(before)
}

// A statement behind those before it.
#[tactic(auto, using(crate::proofs::Standing::made_leads))]
#[cycle(check)]
fn check_next(
    alloc: Global,
    scope: &mut Scope,
    definitions: &Definitions,
    statement: &Statement,
    gives: Option<&Shape>,
    before: Statements,
) -> Result<Statements, ExprFault>
    ensures { Leads result scope.new (next_stated (stated definitions.now (option_copied gives.entry) statement.now) (record { made = before; scope = scope.old })) }
{
    let stated = check_statement(alloc, scope, definitions, statement, gives)?;
    with_statement(before, stated)
}

// A statement in a scope of its own.
#[cycle(check)]
fn check_own(
    alloc: Global,
    scope: &mut Scope,
    definitions: &Definitions,
    statement: &Statement,
    gives: Option<&Shape>,
) -> Result<Stated, ExprFault>
    ensures { Leads result scope.new (own_scope (stated definitions.now (option_copied gives.entry) statement.now) scope.old) }
{
    scope.enter(alloc)?;
    let stated = check_statement(alloc, scope, definitions, statement, gives)?;
    scope.leave();
    Ok(stated)
}

// An `if`. Whether its tests are scalars is told after its bodies.
#[cycle(check)]
fn check_if(
    alloc: Global,
    scope: &mut Scope,
    definitions: &Definitions,
    branch: &If,
    gives: Option<&Shape>,
) -> Result<Stated, ExprFault>
    ensures { Leads result scope.new (branch_stated definitions.now (option_copied gives.entry) branch.now scope.old) }
{
    let unit = scope.unit();
    let arms = check_arms(alloc, scope, definitions, branch.arms.as_slice(), gives)?;
    let fit = are_tested(&arms);
    let stated = check_otherwise(alloc, scope, definitions, &branch.otherwise, gives, arms)?;
    if !fit {
        return Err(broken(unit, branch.token, CheckKind::Mismatch));
    }
    Ok(stated)
}

// Arms from the left.
#[cycle(check)]
fn check_arms(
    alloc: Global,
    scope: &mut Scope,
    definitions: &Definitions,
    arms: &[Arm],
    gives: Option<&Shape>,
) -> Result<Arms, ExprFault>
    ensures { Leads result scope.new (all_armed (map (arm_stated definitions.now (option_copied gives.entry)) arms.now) (record { made = no_arms; scope = scope.old })) }
{
    let mut before = no_arms(alloc);
    for arm in arms {
        before = check_arm(alloc, scope, definitions, arm, gives, before)?;
    }
    Ok(before)
}

// An arm behind those before it.
#[tactic(auto, using(crate::proofs::Standing::made_leads))]
#[cycle(check)]
fn check_arm(
    alloc: Global,
    scope: &mut Scope,
    definitions: &Definitions,
    arm: &Arm,
    gives: Option<&Shape>,
    before: Arms,
) -> Result<Arms, ExprFault>
    ensures { Leads result scope.new (arm_stated definitions.now (option_copied gives.entry) arm.now (record { made = before; scope = scope.old })) }
{
    let test = check_value(alloc, scope, definitions, &arm.test)?;
    let body = check_own(alloc, scope, definitions, arm.body.get(), gives)?;
    with_arm(alloc, before, test, body)
}

// What stands behind the last `else`.
#[tactic(auto, using(crate::proofs::Standing::made_leads))]
#[cycle(check)]
fn check_otherwise(
    alloc: Global,
    scope: &mut Scope,
    definitions: &Definitions,
    otherwise: &Option<Boxed<Statement>>,
    gives: Option<&Shape>,
    arms: Arms,
) -> Result<Stated, ExprFault>
    ensures { Leads result scope.new (otherwise_stated (option_map (stated definitions.now (option_copied gives.entry)) otherwise.now) (record { made = arms; scope = scope.old })) }
{
    match otherwise {
        Some(statement) => {
            let stated = check_own(alloc, scope, definitions, statement.get(), gives)?;
            else_made(alloc, arms, stated)
        }
        None => Ok(if_made(arms)),
    }
}

// A `while`.
#[tactic(auto, using(crate::proofs::Standing::gives_leads))]
#[cycle(check)]
fn check_while(
    alloc: Global,
    scope: &mut Scope,
    definitions: &Definitions,
    written: &While,
    gives: Option<&Shape>,
) -> Result<Stated, ExprFault>
    ensures { Leads result scope.new (while_loop_stated definitions.now (option_copied gives.entry) written.now scope.old) }
{
    let unit = scope.unit();
    let test = check_value(alloc, scope, definitions, &written.test)?;
    let body = check_own(alloc, scope, definitions, &written.body, gives)?;
    check_while_test(alloc, unit, written.token, test, body)
}

// A `for`, which is a scope of its own.
#[cycle(check)]
fn check_for(
    alloc: Global,
    scope: &mut Scope,
    definitions: &Definitions,
    written: &For,
    gives: Option<&Shape>,
) -> Result<Stated, ExprFault>
    ensures { Leads result scope.new (for_loop_stated definitions.now (option_copied gives.entry) written.now scope.old) }
{
    scope.enter(alloc)?;
    let stated = check_for_parts(alloc, scope, definitions, written, gives)?;
    scope.leave();
    Ok(stated)
}

// The parts of a `for` from the left, and then its rule.
#[tactic(auto, using(crate::proofs::Standing::gives_leads))]
#[cycle(check)]
fn check_for_parts(
    alloc: Global,
    scope: &mut Scope,
    definitions: &Definitions,
    written: &For,
    gives: Option<&Shape>,
) -> Result<Stated, ExprFault>
    ensures { Leads result scope.new (for_parts definitions.now (out-For written.now).start (out-For written.now).test (out-For written.now).next (stated definitions.now (option_copied gives.entry) (out-For written.now).body) (out-For written.now).token scope.old) }
{
    let unit = scope.unit();
    let head = check_head(alloc, scope, definitions, written)?;
    let turn = check_own(alloc, scope, definitions, &written.body, gives)?;
    check_for_test(alloc, unit, written.token, head, turn)
}
