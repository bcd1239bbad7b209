//! Typed statements from their parts.

ghost use Rattle.std.specs.Prelude.{◌≡◌, ◌++◌, [], ◌∷◌, max, Ok, Some};
ghost use Rattle.ctl_types.specs.declared.statement.Arm.{roll-Arm};
ghost use Rattle.ctl_check_rules.specs.Faults.{Gives};
ghost use Rattle.ctl_check_init.specs.Takings.{test_rule, taken_by};
ghost use Rattle.ctl_check_statement.specs.Statements.{with_statement, no_statements, block_made, with_arm, no_arms, are_tested, if_made, else_made, while_ruled, for_ruled, declaration_made, declaration_started};

use crate::stated::{Arms, Declared, Head, Started, Stated, Statements};
use ctl_base::ScalarKind;
use ctl_check_init::check_test;
use ctl_check_rules::{Checked, ExprFault, fitting, node_of, operand};
use ctl_types::{Arm, Conversion, ForStart, Operand, Shape, TypedStatement};
use sqlite_items::{Boxed, Items};
use std::alloc::Global;

/// Before the first statement.
pub(crate) fn no_statements(alloc: Global) -> Statements
    ensures { result ≡ no_statements }
{
    Statements {
        forms: Items::new(alloc),
        depth: 0,
    }
}

/// The statements so far with one more.
pub(crate) fn with_statement(before: Statements, stated: Stated) -> Result<Statements, ExprFault>
    ensures { Gives result (Ok (with_statement before stated)) }
{
    let mut forms = before.forms;
    forms.push(stated.form)?;
    Ok(Statements {
        forms,
        depth: before.depth.max(stated.depth),
    })
}

/// A block of statements.
pub(crate) fn block_made(inside: Statements) -> Stated
    ensures { result ≡ block_made inside }
{
    Stated {
        form: TypedStatement::Block(inside.forms),
        depth: inside.depth,
    }
}

// ---- arms

/// Before the first arm.
pub(crate) fn no_arms(alloc: Global) -> Arms
    ensures { result ≡ no_arms }
{
    Arms {
        forms: Items::new(alloc),
        fit: true,
        depth: 0,
    }
}

/// The arms so far with one more, whose test is a scalar or is not.
pub(crate) fn with_arm(
    alloc: Global,
    before: Arms,
    test: Checked,
    body: Stated,
) -> Result<Arms, ExprFault>
    ensures { Gives result (Ok (with_arm before test body (test_rule test))) }
{
    let shape = Shape::Scalar(ScalarKind::Bool);
    let conversion = fitting(&shape, test.sizes.as_slice(), test.base);
    with_tested(alloc, before, test, body, conversion)
}

// The arms so far with one more, and what is done to the value of its test.
fn with_tested(
    alloc: Global,
    before: Arms,
    test: Checked,
    body: Stated,
    conversion: Option<Conversion>,
) -> Result<Arms, ExprFault>
    ensures { Gives result (Ok (with_arm before test body (taken_by test conversion))) }
{
    let depth = before.depth.max(test.depth.max(body.depth));
    match conversion {
        Some(conversion) => {
            let forms = before.forms;
            let forms = push_arm(alloc, forms, operand(test.form, conversion), body.form)?;
            Ok(Arms {
                forms,
                fit: before.fit,
                depth,
            })
        }
        None => Ok(Arms {
            forms: before.forms,
            fit: false,
            depth,
        }),
    }
}

// An arm behind those before it.
fn push_arm(
    alloc: Global,
    before: Items<Arm>,
    test: Operand,
    body: TypedStatement,
) -> Result<Items<Arm>, ExprFault>
    ensures { Gives result (Ok (before ++ roll-Arm (record { test = test; body = body }) ∷ [])) }
{
    let body = Boxed::new(alloc, body)?;
    let mut arms = before;
    arms.push(Arm { test, body })?;
    Ok(arms)
}

/// Whether there are arms, and each test is a scalar.
pub(crate) fn are_tested(arms: &Arms) -> bool
    ensures { result ≡ are_tested arms.now }
{
    arms.fit && !arms.forms.is_empty()
}

/// An `if` without `else`.
pub(crate) fn if_made(arms: Arms) -> Stated
    ensures { result ≡ if_made arms }
{
    Stated {
        form: TypedStatement::If(arms.forms, None),
        depth: arms.depth,
    }
}

/// An `if` with what stands behind its last `else`.
pub(crate) fn else_made(alloc: Global, arms: Arms, otherwise: Stated) -> Result<Stated, ExprFault>
    ensures { Gives result (Ok (else_made arms otherwise)) }
{
    let depth = arms.depth.max(otherwise.depth);
    let otherwise = Boxed::new(alloc, otherwise.form)?;
    Ok(Stated {
        form: TypedStatement::If(arms.forms, Some(otherwise)),
        depth,
    })
}

// ---- loops

/// A `while`, whose test is a scalar.
pub(crate) fn check_while_test(
    alloc: Global,
    unit: u32,
    token: u32,
    test: Checked,
    body: Stated,
) -> Result<Stated, ExprFault>
    ensures { Gives result (while_ruled unit token test body) }
{
    let test = check_test(unit, token, test)?;
    let depth = test.depth.max(body.depth);
    let operand = Boxed::new(alloc, test.operand)?;
    let body = Boxed::new(alloc, body.form)?;
    Ok(Stated {
        form: TypedStatement::While(operand, body, node_of(unit, token)),
        depth,
    })
}

/// A `for`, whose test is a scalar.
pub(crate) fn check_for_test(
    alloc: Global,
    unit: u32,
    token: u32,
    head: Head,
    body: Stated,
) -> Result<Stated, ExprFault>
    ensures { Gives result (for_ruled unit token head body) }
{
    let Head { first, test, next } = head;
    let test = check_test(unit, token, test)?;
    let depth = first.depth.max(test.depth).max(next.depth.max(body.depth));
    let first = Boxed::new(alloc, first.form)?;
    let operand = Boxed::new(alloc, test.operand)?;
    let next = Boxed::new(alloc, next.assignment)?;
    let body = Boxed::new(alloc, body.form)?;
    Ok(Stated {
        form: TypedStatement::For(first, operand, next, body, node_of(unit, token)),
        depth,
    })
}

// ---- declarations

/// A declaration as a statement.
pub(crate) fn declaration_made(alloc: Global, declared: Declared) -> Result<Stated, ExprFault>
    ensures { Gives result (Ok (declaration_made declared)) }
{
    let declaration = Boxed::new(alloc, declared.declaration)?;
    Ok(Stated {
        form: TypedStatement::Declare(declaration),
        depth: declared.depth,
    })
}

/// A declaration as how a `for` begins.
pub(crate) fn declaration_started(declared: Declared) -> Started
    ensures { result ≡ declaration_started declared }
{
    Started {
        form: ForStart::Declare(declared.declaration),
        depth: declared.depth,
    }
}
