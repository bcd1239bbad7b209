//! Definitions, one after another: each is checked by those before it, and then stands with them.

ghost use Rattle.std.specs.Prelude.{◌≡◌, map};
ghost use Rattle.ctl_tree.specs.OwnTokens.{all_tokens, definition_tokens, constant_tokens, function_tokens};
ghost use Rattle.ctl_tree.specs.declared.definition.Namespace.{out-Namespace};
ghost use Rattle.ctl_scope.specs.Changes.{out_of_space};
ghost use Rattle.ctl_check_function.specs.Entry.{entry_of};
ghost use Rattle.ctl_check_function.specs.Defining.{struct_defined, constant_defined, function_defined, all_defined, namespace_defined, defined};
ghost use Rattle.ctl_check_function.specs.Laws.{Resting};
ghost use Rattle.ctl_check.specs.Keeps.{Defines, KeepsRest, SpaceLeft, TokensOf};

use ctl_check_function::{Entry, check_constant, check_function, check_struct, is_function};
use ctl_check_rules::{ExprFault, broken};
use ctl_program::Definitions;
use ctl_scope::{CheckKind, Scope, ScopeFault};
use ctl_tree::{Constant, Definition, Function, Namespace, Struct};
use definition_laws::{
    accepted_constants_fit, accepted_functions_fit, accepted_structs_fit, spaces_rest,
};
use std::alloc::Global;

/// Definitions one after another.
#[tactic(auto, using(crate::proofs::Tokens::item_own, crate::proofs::Tokens::rest_own, crate::proofs::Tokens::all_own, crate::proofs::Tokens::tokens_stay, crate::proofs::Resting::rests_here, crate::proofs::Resting::rests_on))]
#[cycle(define)]
pub(crate) fn define_all(
    alloc: Global,
    scope: &mut Scope,
    definitions: &mut Definitions,
    entry: Entry,
    parts: &[Definition],
) -> Result<(), ExprFault>
    requires resting { Resting scope.old definitions.old }
    requires tokens { TokensOf scope.old definitions.old (all_tokens definition_tokens parts.now) }
    requires entry { entry ≡ entry_of definitions.old.units }
    ensures verdict { Defines result scope.new definitions.new (all_defined (map defined parts.now) (record { made = definitions.old; scope = scope.old })) }
    ensures rests { KeepsRest result scope.old definitions.old scope.new definitions.new }
{
    for part in parts {
        define(alloc, scope, definitions, entry, part)?;
    }
    Ok(())
}

// A definition.
#[tactic(auto, using(crate::proofs::Tokens::space_own))]
#[cycle(define)]
fn define(
    alloc: Global,
    scope: &mut Scope,
    definitions: &mut Definitions,
    entry: Entry,
    definition: &Definition,
) -> Result<(), ExprFault>
    requires resting { Resting scope.old definitions.old }
    requires tokens { TokensOf scope.old definitions.old (definition_tokens definition.now) }
    requires entry { entry ≡ entry_of definitions.old.units }
    ensures verdict { Defines result scope.new definitions.new (defined definition.now (record { made = definitions.old; scope = scope.old })) }
    ensures rests { KeepsRest result scope.old definitions.old scope.new definitions.new }
{
    match definition {
        Definition::Namespace(space) => define_space(alloc, scope, definitions, entry, space),
        Definition::Struct(written) => define_struct(alloc, scope, definitions, written),
        Definition::Constant(written) => define_constant(alloc, scope, definitions, written),
        Definition::Function(written) => define_function(alloc, scope, definitions, entry, written),
    }
}

// A namespace: its definitions, and then its own name.
#[tactic(auto, using(crate::proofs::Resting::left_defines, crate::proofs::Resting::left_keeps))]
#[cycle(define)]
fn define_space(
    alloc: Global,
    scope: &mut Scope,
    definitions: &mut Definitions,
    entry: Entry,
    space: &Namespace,
) -> Result<(), ExprFault>
    requires resting { Resting scope.old definitions.old }
    requires tokens { TokensOf scope.old definitions.old (all_tokens definition_tokens (out-Namespace space.now).definitions) }
    requires entry { entry ≡ entry_of definitions.old.units }
    ensures verdict { Defines result scope.new definitions.new (namespace_defined space.now (record { made = definitions.old; scope = scope.old })) }
    ensures rests { KeepsRest result scope.old definitions.old scope.new definitions.new }
{
    spaces_rest();
    scope.enter_space(alloc, space.name.as_slice())?;
    define_all(
        alloc,
        scope,
        definitions,
        entry,
        space.definitions.as_slice(),
    )?;
    leave_space(alloc, scope, space.token, space.name.as_slice())
}

// A namespace ends, and has its name.
fn leave_space(alloc: Global, scope: &mut Scope, token: u32, name: &[u8]) -> Result<(), ExprFault>
    ensures { SpaceLeft result scope.new name.now token (out_of_space scope.old) }
{
    let unit = scope.unit();
    match scope.leave_space(alloc, name) {
        Ok(()) => Ok(()),
        Err(ScopeFault::Twice) => Err(broken(unit, token, CheckKind::Twice)),
        Err(ScopeFault::Memory) => Err(ExprFault::Memory),
    }
}

// A struct.
fn define_struct(
    alloc: Global,
    scope: &mut Scope,
    definitions: &mut Definitions,
    written: &Struct,
) -> Result<(), ExprFault>
    requires { Resting scope.old definitions.old }
    ensures verdict { Defines result scope.new definitions.new (struct_defined written.now (record { made = definitions.old; scope = scope.old })) }
    ensures rests { KeepsRest result scope.old definitions.old scope.new definitions.new }
{
    scope.keeps_rules();
    definitions.keep_rules();
    accepted_structs_fit();
    let made = check_struct(alloc, scope, definitions, written)?;
    definitions.push_struct(made)?;
    Ok(())
}

// A constant.
fn define_constant(
    alloc: Global,
    scope: &mut Scope,
    definitions: &mut Definitions,
    written: &Constant,
) -> Result<(), ExprFault>
    requires resting { Resting scope.old definitions.old }
    requires tokens { TokensOf scope.old definitions.old (constant_tokens written.now) }
    ensures verdict { Defines result scope.new definitions.new (constant_defined written.now (record { made = definitions.old; scope = scope.old })) }
    ensures rests { KeepsRest result scope.old definitions.old scope.new definitions.new }
{
    scope.keeps_rules();
    definitions.keep_rules();
    accepted_constants_fit();
    let made = check_constant(alloc, scope, definitions, written)?;
    definitions.push_constant(made)?;
    Ok(())
}

// A function.
fn define_function(
    alloc: Global,
    scope: &mut Scope,
    definitions: &mut Definitions,
    entry: Entry,
    written: &Function,
) -> Result<(), ExprFault>
    requires resting { Resting scope.old definitions.old }
    requires tokens { TokensOf scope.old definitions.old (function_tokens written.now) }
    requires entry { entry ≡ entry_of definitions.old.units }
    ensures verdict { Defines result scope.new definitions.new (function_defined written.now (record { made = definitions.old; scope = scope.old })) }
    ensures rests { KeepsRest result scope.old definitions.old scope.new definitions.new }
{
    scope.keeps_rules();
    definitions.keep_rules();
    accepted_functions_fit();
    let is_entry = is_function(entry, scope.unit(), written.token);
    let made = check_function(alloc, scope, definitions, is_entry, written)?;
    definitions.push_function(made.function)?;
    Ok(())
}
