//! What the checker accepts of definitions keeps the rules.

ghost use Rattle.ctl_check_function.specs.Laws.{StructsFit, ConstantsFit, FunctionsFit, SpacesRest, EntryStands};

use ctl_check_laws::{typed_call_is_well_typed, typed_is_well_typed};
use ctl_laws::initialisers_are_sound;
use ctl_program::signatures_stay;
use ctl_scope::{beside_begins, beside_grows, found_is_there, scopes_stay};
use ctl_types::words_are_counted;
use initialiser_laws::{
    assignments_are_well, initialisers_are_well, returns_are_well, tests_are_bool,
};

/// A struct that the checker accepts stands behind the definitions so far: it has a field, its fields are of structs
/// before it and have stated sizes, and its scalars have their limit. The scope with its name numbers the definitions
/// with it, and stays in its module and its namespace.
pub fn accepted_structs_fit()
    ensures { StructsFit }
{
    found_is_there();
    beside_grows();
    signatures_stay();
}

/// A constant that the checker accepts stands behind the definitions so far: its shape has stated sizes, which its
/// initialiser may give, and its value is of that shape. The scope with its name numbers the definitions with it, and
/// stays in its module and its namespace.
pub fn accepted_constants_fit()
    ensures { ConstantsFit }
{
    initialisers_are_well();
    initialisers_are_sound();
    found_is_there();
    beside_grows();
    signatures_stay();
}

/// A function that the checker accepts is well typed behind the definitions so far: the shapes of its parameters and its
/// result stand, its defaults are of their shapes, its body declares each variable once, and it returns where it is to
/// give a value. The scope with its name numbers the definitions with it, and stays in its module and its namespace.
pub fn accepted_functions_fit()
    ensures { FunctionsFit }
{
    typed_is_well_typed();
    typed_call_is_well_typed();
    tests_are_bool();
    assignments_are_well();
    returns_are_well();
    initialisers_are_well();
    initialisers_are_sound();
    words_are_counted();
    found_is_there();
    scopes_stay();
    beside_grows();
}

/// Outside functions the scope numbers the definitions so far, and no function is around. It is so before all modules,
/// and stays so where a module or a namespace begins or ends.
pub fn spaces_rest()
    ensures { SpacesRest }
{
    beside_begins();
}

/// The entry of a program whose units are accepted, where there is one, gives no value, and its parameters are of no
/// struct and have no open size.
pub fn entry_stands_checked()
    ensures { EntryStands }
{}
