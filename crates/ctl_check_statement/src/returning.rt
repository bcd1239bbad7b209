//! Which statements surely return.

ghost use Rattle.std.specs.Prelude.{◌≡◌, map};
ghost use Rattle.std.specs.Option.{option_map};
ghost use Rattle.ctl_check_statement.specs.Returning.{one_returns, all_return, else_returns, surely_returns, block_surely_returns, branch_surely_returns, arm_surely_returns};

use ctl_tree::{Arm, Block, If, Statement};
use sqlite_items::Boxed;

/// Whether a block surely returns: one of its statements is a `return`, a block that surely returns, or an `if` with an
/// `else` all of whose bodies do.
#[cycle(returning)]
pub fn surely_returns(block: &Block) -> bool
    ensures { result ≡ block_surely_returns block.now }
{
    one_returns(block.statements.as_slice())
}

#[cycle(returning)]
fn one_returns(statements: &[Statement]) -> bool
    ensures { result ≡ one_returns (map surely_returns statements.now) }
{
    for statement in statements {
        if returns(statement) {
            return true;
        }
    }
    false
}

#[cycle(returning)]
fn returns(statement: &Statement) -> bool
    ensures { result ≡ surely_returns statement.now }
{
    match statement {
        Statement::Block(block) => surely_returns(block),
        Statement::Constant(_) => false,
        Statement::Variable(_) => false,
        Statement::Assignment(_) => false,
        Statement::Call(_) => false,
        Statement::If(branch) => branch_returns(branch),
        Statement::While(_) => false,
        Statement::For(_) => false,
        Statement::Return(_) => true,
        Statement::Print(_) => false,
        Statement::Empty(_) => false,
    }
}

#[cycle(returning)]
fn branch_returns(branch: &If) -> bool
    ensures { result ≡ branch_surely_returns branch.now }
{
    all_return(branch.arms.as_slice()) && else_returns(&branch.otherwise)
}

#[cycle(returning)]
fn all_return(arms: &[Arm]) -> bool
    ensures { result ≡ all_return (map arm_surely_returns arms.now) }
{
    for arm in arms {
        if !returns(arm.body.get()) {
            return false;
        }
    }
    true
}

#[cycle(returning)]
fn else_returns(otherwise: &Option<Boxed<Statement>>) -> bool
    ensures { result ≡ else_returns (option_map surely_returns otherwise.now) }
{
    match otherwise {
        Some(statement) => returns(statement.get()),
        None => false,
    }
}
