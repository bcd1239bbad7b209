//! What stands at the name of what is declared: the rules, and the value of an initialiser.

ghost use Rattle.std.specs.Prelude.{◌≡◌, false, IsOk};
ghost use Rattle.ctl_check_rules.specs.Faults.{Gives, rule_at};
ghost use Rattle.ctl_check_function.specs.Values.{first_value};
ghost use Rattle.ctl_check_function.specs.Names.{new_rule, begun_new};

use ctl_base::limits::TURNS;
use ctl_check_init::{Begun, check_begun};
use ctl_check_rules::{ExprFault, broken};
use ctl_eval::{ValueEnd, evaluate};
use ctl_program::Definitions;
use ctl_scope::{CheckKind, Scope};
use ctl_types::{Base, Initialiser, Value};
use std::alloc::Global;

/// A name that is there already is wrong.
pub(crate) fn check_new(unit: u32, token: u32, is_twice: bool) -> Result<(), ExprFault>
    ensures rule { Gives result (rule_at unit token (new_rule is_twice)) }
    ensures new { IsOk result → is_twice ≡ false }
{
    if is_twice {
        return Err(broken(unit, token, CheckKind::Twice));
    }
    Ok(())
}

/// The rules at a name with an initialiser: it is new, and the initialiser fits.
pub(crate) fn check_begun_new(
    scope: &Scope,
    token: u32,
    is_twice: bool,
    base: Base,
    given: Option<Begun>,
) -> Result<Begun, ExprFault>
    ensures rule { Gives result (rule_at scope.now.unit token (begun_new scope.now.counts is_twice base given)) }
    ensures new { IsOk result → is_twice ≡ false }
{
    if is_twice {
        return Err(broken(scope.unit(), token, CheckKind::Twice));
    }
    check_begun(scope, token, base, given)
}

/// The value of an initialiser, unless its run traps.
pub(crate) fn check_first_value(
    alloc: Global,
    unit: u32,
    token: u32,
    definitions: &Definitions,
    initialiser: &Initialiser,
) -> Result<Value, ExprFault>
    ensures { Gives result (rule_at unit token (first_value definitions.now initialiser.now)) }
{
    match evaluate(alloc, definitions, initialiser, TURNS)? {
        Some(ValueEnd::Value { value, turns: _ }) => Ok(value),
        Some(ValueEnd::Trap { kind: _, node: _ }) => Err(broken(unit, token, CheckKind::ConstTrap)),
        None => Err(broken(unit, token, CheckKind::ConstTrap)),
    }
}
