//! Loading over files in memory.

mod tables;

ghost use Rattle.std.specs.Prelude.{◌<◌};

use self::tables::{CYCLES, FAILING, FOLDERS, MANY, ORDER, REFUSED};
use ctl_base::Memory;
use ctl_base::limits::TEXT_BYTES;
use ctl_tree::Units;
use module_path::{
    LoadFault, asks_for_the_first, at_least_one, at_most_one, each_once, load, read_fault_is_last,
};
use outside::MemBox;
use std::alloc::Global;

/// The path, the number of the call that fails or 0, the files with their texts, the number of calls, and the answer.
type Case = (
    &'static str,
    u32,
    &'static [(&'static str, &'static str)],
    u32,
    &'static str,
);

/// Whether the root imports all modules or the first, which imports the next and so on; how many there are, the text of
/// the last, the number of calls, and the answer.
type Many = (bool, u32, &'static str, u32, &'static str);

fn files_of(alloc: Global, failing: u32, files: &[(&str, &str)]) -> Result<MemBox, Memory> {
    let mut numbers = Vec::new(alloc);
    numbers.push(failing)?;
    let mut held = MemBox::new(numbers, 0);
    for (name, text) in files {
        held.put(name, text.as_bytes())?;
    }
    Ok(held)
}

fn names_of(alloc: Global, units: &Units) -> Result<String, Memory> {
    let mut names = String::from_str(alloc, "Loaded")?;
    for unit in units.as_slice() {
        names.push_str(" ")?;
        names.push_str(unit.file().as_str())?;
    }
    Ok(names)
}

fn answer(alloc: Global, files: &mut MemBox, path: &str) -> Result<String, Memory> {
    match load(alloc, files, path, "r.ctl") {
        Ok(units) => names_of(alloc, &units),
        Err(fault) => Ok(format!(in alloc; "{fault:?}")?),
    }
}

// Whether a case has its answer after as many calls.
fn has_answer(alloc: Global, case: &Case) -> Result<bool, Memory> {
    let mut files = files_of(alloc, case.1, case.2)?;
    let told = answer(alloc, &mut files, case.0)?;
    Ok(told.as_str() == case.4 && files.calls() == case.3)
}

fn have_answers(alloc: Global, cases: &[Case]) -> Result<bool, Memory> {
    for case in cases {
        if !has_answer(alloc, case)? {
            return Ok(false);
        }
    }
    Ok(true)
}

#[test]
fn modules_come_after_their_imports(rt: HostRuntime) -> Result<(), Memory> {
    assert!(rt; have_answers(rt.alloc(), &ORDER)?);
    Ok(())
}

#[test]
fn the_first_folder_that_holds_a_module_counts(rt: HostRuntime) -> Result<(), Memory> {
    assert!(rt; have_answers(rt.alloc(), &FOLDERS)?);
    Ok(())
}

#[test]
fn a_module_being_loaded_is_a_cycle(rt: HostRuntime) -> Result<(), Memory> {
    assert!(rt; have_answers(rt.alloc(), &CYCLES)?);
    Ok(())
}

#[test]
fn the_first_refusal_is_told(rt: HostRuntime) -> Result<(), Memory> {
    assert!(rt; have_answers(rt.alloc(), &REFUSED)?);
    Ok(())
}

// The text of the root that imports M1 to as many modules.
fn star_root(alloc: Global, count: u32) -> Result<String, Memory> {
    let mut text = String::new(alloc);
    for k in 0..count {
        let line = format!(in alloc; "import \"M{}\";", k + 1)?;
        text.push_str(&line)?;
    }
    Ok(text)
}

// One module of many that is not the last.
fn put_one(alloc: Global, files: &mut MemBox, is_star: bool, k: u32) -> Result<(), Memory>
    requires { k < 100 }
{
    let name = format!(in alloc; "p/M{k}.ctl")?;
    if is_star {
        return files.put(&name, b"");
    }
    let text = format!(in alloc; "import \"M{}\";", k + 1)?;
    files.put(&name, text.as_bytes())
}

fn put_last(alloc: Global, files: &mut MemBox, k: u32, text: &str) -> Result<(), Memory> {
    let name = format!(in alloc; "p/M{k}.ctl")?;
    files.put(&name, text.as_bytes())
}

fn put_many(alloc: Global, files: &mut MemBox, is_star: bool, count: u32) -> Result<(), Memory>
    requires { count < 100 }
{
    let root = star_root(alloc, if is_star { count } else { 1 })?;
    files.put("r.ctl", root.as_bytes())?;
    for k in 1..count {
        put_one(alloc, files, is_star, k)?;
    }
    Ok(())
}

fn count_of(alloc: Global, files: &mut MemBox) -> Result<String, Memory> {
    match load(alloc, files, "p", "r.ctl") {
        Ok(units) => Ok(format!(in alloc; "Loaded {}", units.len())?),
        Err(fault) => Ok(format!(in alloc; "{fault:?}")?),
    }
}

fn has_count(alloc: Global, many: &Many) -> Result<bool, Memory> {
    if many.1 >= 100 {
        return Ok(false);
    }
    let mut files = files_of(alloc, 0, &[])?;
    put_many(alloc, &mut files, many.0, many.1)?;
    put_last(alloc, &mut files, many.1, many.2)?;
    let told = count_of(alloc, &mut files)?;
    Ok(told.as_str() == many.4 && files.calls() == many.3)
}

#[test]
fn there_may_be_64_modules(rt: HostRuntime) -> Result<(), Memory> {
    for many in &MANY {
        assert!(rt; has_count(rt.alloc(), many)?);
    }
    Ok(())
}

#[test]
fn a_call_that_fails_is_told_by_its_name(rt: HostRuntime) -> Result<(), Memory> {
    assert!(rt; have_answers(rt.alloc(), &FAILING)?);
    Ok(())
}

fn is_too_long(alloc: Global, files: &mut MemBox) -> bool {
    match load(alloc, files, "p", "r.ctl") {
        Err(LoadFault::TooLong { file }) => file.as_str() == "p/A.ctl",
        _ => false,
    }
}

// A module of more bytes than a text may have.
fn put_long_module(alloc: Global, files: &mut MemBox) -> Result<(), Memory> {
    let long = vec![in alloc; b' '; TEXT_BYTES as usize + 1]?;
    files.put("p/A.ctl", &long)
}

#[test]
fn a_text_has_at_most_a_limit_of_bytes(rt: HostRuntime) -> Result<(), Memory> {
    let mut files = files_of(rt.alloc(), 0, &[("r.ctl", "import \"A\";")])?;
    put_long_module(rt.alloc(), &mut files)?;
    assert!(rt; is_too_long(rt.alloc(), &mut files));
    Ok(())
}

#[test]
fn the_laws_are_called() {
    at_most_one();
    at_least_one();
    each_once();
    asks_for_the_first();
    read_fault_is_last();
}
