//! Which function is the entry. It is known by its name before anything is checked.

ghost use Rattle.std.specs.Prelude.{◌≡◌, Option};
ghost use Rattle.ctl_tree.specs.declared.definition.Definition.{out-Definition};
ghost use Rattle.ctl_types.specs.Definitions.{base_name, without_ending, stem, first_found};
ghost use Rattle.ctl_check_function.specs.Entry.{token_in, function_token, entry_in, entry_token, entry_of, is_token, is_function};

use ctl_tree::{Definition, Unit, Units};

/// The entry of a program: the place of the root in load order, and the token of the function there, where there is one.
#[derive(Clone, Copy)]
pub struct Entry {
    pub unit: u32,
    pub token: Option<u32>,
}

/// The entry of the program of these units: of the functions that the root defines outside all namespaces the one named
/// `main`, else the one named as the file without its folder and without `.ctl`.
pub fn entry_of(units: &Units) -> Entry
    ensures { result ≡ entry_of units.now }
{
    Entry {
        unit: units.len().saturating_sub(1),
        token: entry_token(units.as_slice()),
    }
}

/// Whether a function of a unit is the entry, by its own token.
pub fn is_function(entry: Entry, unit: u32, token: u32) -> bool
    ensures { result ≡ is_function entry unit token }
{
    unit == entry.unit && is_token(token, entry.token)
}

// Whether a token is that of the entry.
fn is_token(token: u32, entry: Option<u32>) -> bool
    ensures { result ≡ is_token token entry }
{
    match entry {
        Some(entry) => token == entry,
        None => false,
    }
}

// The token of the entry of units, of which the root is the last.
#[tactic(auto, using(crate::proofs::Units::root_behind))]
fn entry_token(units: &[Unit]) -> Option<u32>
    ensures { result ≡ entry_token units.now }
{
    match units.split_first() {
        Some((unit, rest)) => {
            if rest.is_empty() {
                entry_in(unit)
            } else {
                entry_token(rest)
            }
        }
        None => None,
    }
}

// The token of the entry of a module.
fn entry_in(unit: &Unit) -> Option<u32>
    ensures { result ≡ entry_in unit.now }
{
    let definitions = unit.module().definitions.as_slice();
    match function_token(b"main".as_slice(), definitions) {
        Some(token) => Some(token),
        None => function_token(stem(unit.file().as_str().as_bytes()), definitions),
    }
}

// The token of the first function of a name, those in namespaces left out.
fn function_token(name: &[u8], definitions: &[Definition]) -> Option<u32>
    ensures { result ≡ function_token name.now definitions.now }
{
    for definition in definitions {
        if let Some(token) = token_in(name, definition) {
            return Some(token);
        }
    }
    None
}

// The token of a definition, where it is a function of a name.
fn token_in(name: &[u8], definition: &Definition) -> Option<u32>
    ensures { result ≡ token_in name.now (out-Definition definition.now) }
{
    match definition {
        Definition::Namespace(_) => None,
        Definition::Struct(_) => None,
        Definition::Constant(_) => None,
        Definition::Function(function) => {
            if function.name.as_slice() == name {
                Some(function.token)
            } else {
                None
            }
        }
    }
}

/// The name of a file without its folder and without `.ctl`.
pub fn stem(file: &[u8]) -> &[u8]
    ensures { result.now ≡ stem file.now }
{
    without_ending(base_name(file))
}

// The name of a file without its folder.
#[tactic(auto, using(crate::proofs::Slashes::goes_on, crate::proofs::Slashes::begins, crate::proofs::Slashes::named_by))]
fn base_name(file: &[u8]) -> &[u8]
    ensures { result.now ≡ base_name file.now }
{
    let mut start = file.len();
    while start > 0 && file[start - 1] != b'/' {
        start -= 1;
    }
    &file[start..]
}

// A name without `.ctl` at its end.
fn without_ending(name: &[u8]) -> &[u8]
    ensures { result.now ≡ without_ending name.now }
{
    let end = name.len().saturating_sub(4);
    if &name[end..] == b".ctl".as_slice() {
        &name[..end]
    } else {
        name
    }
}
