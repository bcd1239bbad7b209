//! The number of the entry.

ghost use Rattle.std.specs.Prelude.{◌≡◌, ◌-◌, length, codes, IfOk};
ghost use Rattle.ctl_types.specs.Definitions.{function_named, root_file, is_unqualified, entry_number};
ghost use Rattle.ctl_check.specs.Checks.{is_named};

use ctl_base::Memory;
use ctl_check_function::stem;
use ctl_program::Definitions;
use ctl_tree::Unit;
use ctl_types::Function;

/// The number of the entry, and none where there is none.
pub(crate) fn entry_number(definitions: &Definitions) -> Result<Option<u32>, Memory>
    ensures { IfOk result (λ entry. entry ≡ entry_number definitions.now) }
{
    let root = definitions.units().len().saturating_sub(1);
    let functions = definitions.functions();
    match function_named(b"main".as_slice(), root, functions)? {
        Some(number) => Ok(Some(number)),
        None => {
            let file = root_file(definitions.units().as_slice());
            function_named(stem(file), root, functions)
        }
    }
}

// The file of the root, which is the last unit.
#[tactic(auto, using(crate::proofs::Entries::root_behind))]
fn root_file(units: &[Unit]) -> &[u8]
    ensures { result.now ≡ root_file units.now }
{
    match units.split_first() {
        Some((unit, rest)) => {
            if rest.is_empty() {
                unit.file().as_str().as_bytes()
            } else {
                root_file(rest)
            }
        }
        None => &[],
    }
}

// The number of the function of a module with a name, outside all namespaces.
fn function_named(name: &[u8], module: u32, functions: &[Function]) -> Result<Option<u32>, Memory>
    ensures { IfOk result (λ found. found ≡ function_named name.now «module» 0 functions.now) }
{
    for i in 0..functions.len() {
        if is_named(&functions[i], name, module) {
            return Ok(Some(number(i)?));
        }
    }
    Ok(None)
}

// Whether a function has a name, and stands in a module outside all namespaces.
fn is_named(function: &Function, name: &[u8], module: u32) -> bool
    ensures { result ≡ is_named name.now «module» function.now }
{
    let own = function.name.as_slice();
    own == name && function.node.module == module && is_unqualified(own)
}

// Whether a name has no `:` in it.
fn is_unqualified(name: &[u8]) -> bool
    ensures { result ≡ is_unqualified name.now }
{
    for byte in name {
        if *byte == b':' {
            return false;
        }
    }
    true
}

// A number that is kept in 32 bits. More than these can number have no room.
fn number(count: usize) -> Result<u32, Memory>
    ensures { IfOk result (λ n. n ≡ count) }
{
    match u32::try_from(count) {
        Ok(number) => Ok(number),
        Err(_) => Err(Memory),
    }
}
