//! The walk over the imports.

ghost use Rattle.std.specs.Prelude.{◌≡◌, ℕ, ◌+◌, ◌<◌, ◌≤◌, [], ◌∷◌, ◌++◌, List, Some, IfOk, Ok, length};
ghost use Rattle.ctl_base.specs.declared.limits.TheConstants.{MODULES, TEXT_BYTES};
ghost use Rattle.ctl_tree.specs.Units.{SourceUnit};
ghost use Rattle.outside.specs.Calls.{FileCall};
ghost use Rattle.outside.specs.Causes.{Rose};
ghost use Rattle.outside.specs.Files.{Held};
ghost use Rattle.outside.specs.ReadsAlone.{ReadsAlone};
ghost use Rattle.module_path.specs.ModuleFiles.{root_text};
ghost use Rattle.module_path.specs.LoadOrder.{is_among, with_name, LoadOrder, Fetches, LoadsFile, LoadsAll, Loads};
ghost use Rattle.module_path.specs.Loading.{Seen, CountsFaults, NoReadFault, LoadsUnits};
ghost use Rattle.module_path.specs.Means.{ArePrintable, walked, source_of};

use crate::fault::LoadFault;
use crate::files::{SourceFile, fetch_file, find};
use crate::folders::folders_of;
use crate::laws::at_most_one;
use crate::reading::{as_text, read_unit};
use ctl_base::limits::MODULES;
use ctl_base::{Memory, TextArg};
use ctl_tree::{Import, Units};
use outside::FileBox;
use std::alloc::Global;

// The names of the modules being loaded, the outermost first, and what is loaded.
#[derive(Drop)]
struct Walk {
    loading: Vec<TextArg>,
    names: Vec<TextArg>,
    units: Units,
}

/// The modules that the root imports, each after its imports and once, and the root last.
///
/// The root is the file of this name. A module N is the file `folder/N.ctl` in the first folder of the path that
/// holds it. The folders of the path stand between colons, and empty ones are skipped.
pub fn load<F: FileBox>(
    alloc: Global,
    files: &mut F,
    path: &str,
    name: &str,
) -> Result<Units, LoadFault>
    ensures loads { (held : Held) → F.held files.old ≡ Some held → Seen (λ units. units) (LoadOrder held path.now name.now (F.asked files.old) (F.asked files.new)) result }
    ensures reads { ReadsAlone F.held F.lost F.serves files.old files.new }
    ensures counted { CountsFaults (F.faults files.old) (F.faults files.new) result }
    ensures served { (to : List ℕ) (n : ℕ) → F.serves files.old to n → NoReadFault result }

    // Nothing but a failure of the files, or want of memory, keeps modules that are all held and accepted from being loaded.
    ensures complete { (held : Held) → F.held files.old ≡ Some held → (calls : List FileCall) (units : List SourceUnit) → LoadOrder held path.now name.now (F.asked files.old) calls (Ok units)
        → (Rose (F.faults files.old) (F.faults files.new) → ⊥) → LoadsUnits units result }
{
    at_most_one();
    load_root(alloc, files, path, name)
}

// Loads the root.
fn load_root<F: FileBox>(
    alloc: Global,
    files: &mut F,
    path: &str,
    name: &str,
) -> Result<Units, LoadFault>
    ensures loads { (held : Held) → F.held files.old ≡ Some held → Seen (λ units. units) (LoadOrder held path.now name.now (F.asked files.old) (F.asked files.new)) result }
    ensures reads { ReadsAlone F.held F.lost F.serves files.old files.new }
    ensures counted { CountsFaults (F.faults files.old) (F.faults files.new) result }
    ensures served { (to : List ℕ) (n : ℕ) → F.serves files.old to n → NoReadFault result }
{
    let folders = folders_of(alloc, path)?;
    let mut walk = Walk {
        loading: Vec::new(alloc),
        names: Vec::new(alloc),
        units: Units::new(alloc),
    };
    let text = find_root(alloc, files, name)?;
    load_file(alloc, files, &folders, text, &mut walk)?;
    Ok(walk.units)
}

// The file of the root.
fn find_root<F: FileBox>(alloc: Global, files: &mut F, name: &str) -> Result<SourceFile, LoadFault>
    ensures finds { (held : Held) → F.held files.old ≡ Some held → Seen source_of (Fetches (name.now ∷ []) (root_text held name.now) (F.asked files.old) (F.asked files.new)) result }
    ensures short { IfOk result (λ f. length f.bytes ≤ TEXT_BYTES) }
    ensures reads { ReadsAlone F.held F.lost F.serves files.old files.new }
    ensures counted { CountsFaults (F.faults files.old) (F.faults files.new) result }
    ensures served { (to : List ℕ) (n : ℕ) → F.serves files.old to n → NoReadFault result }
{
    let file = TextArg::new(alloc, name)?;
    match fetch_file(alloc, files, file)? {
        Some(text) => Ok(text),
        None => Err(LoadFault::NotFound {
            name: TextArg::new(alloc, name)?,
        }),
    }
}

// Whether the name is one of these.
fn has(names: &[TextArg], name: &str) -> bool
    ensures { result ≡ is_among names.now name.now }
{
    names
        .iter()
        .any(|n| n.as_str().as_bytes() == name.as_bytes())
}

// Loads the imports of a text, and then itself.
#[cycle(load_file)]
#[tactic(auto, using(crate::proofs::Order::order))]
fn load_file<F: FileBox>(
    alloc: Global,
    files: &mut F,
    folders: &[TextArg],
    text: SourceFile,
    walk: &mut Walk,
) -> Result<(), LoadFault>
    requires short { length text.bytes ≤ TEXT_BYTES }
    requires room { length walk.now.loading.items + length walk.now.names.items < MODULES }
    requires paired { length walk.now.units ≡ length walk.now.names.items }
    ensures loads { (held : Held) → F.held files.old ≡ Some held → Seen (λ _. walked walk.new) (LoadsFile held folders.now walk.old.loading.items (source_of text) (walked walk.old) (F.asked files.old) (F.asked files.new)) result }
    ensures loading { IfOk result (λ _. walk.new.loading.items ≡ walk.old.loading.items) }
    ensures room { IfOk result (λ _. length walk.new.loading.items + length walk.new.names.items < MODULES) }
    ensures paired { IfOk result (λ _. length walk.new.units ≡ length walk.new.names.items + 1) }
    ensures reads { ReadsAlone F.held F.lost F.serves files.old files.new }
    ensures counted { CountsFaults (F.faults files.old) (F.faults files.new) result }
    ensures served { (to : List ℕ) (n : ℕ) → F.serves files.old to n → NoReadFault result }
{
    let unit = read_unit(alloc, text)?;
    load_all(
        alloc,
        files,
        folders,
        unit.file(),
        unit.module().imports.as_slice(),
        walk,
    )?;
    walk.units.push(unit)?;
    Ok(())
}

// Loads the imports of a file in order.
#[cycle(load_file)]
#[tactic(auto, using(crate::proofs::Order::order))]
fn load_all<F: FileBox>(
    alloc: Global,
    files: &mut F,
    folders: &[TextArg],
    file: &TextArg,
    imports: &[Import],
    walk: &mut Walk,
) -> Result<(), LoadFault>
    requires printable { ArePrintable imports.now }
    requires room { length walk.now.loading.items + length walk.now.names.items < MODULES }
    requires paired { length walk.now.units ≡ length walk.now.names.items }
    ensures loads { (held : Held) → F.held files.old ≡ Some held → Seen (λ _. walked walk.new) (LoadsAll held folders.now walk.old.loading.items file.now imports.now (walked walk.old) (F.asked files.old) (F.asked files.new)) result }
    ensures loading { IfOk result (λ _. walk.new.loading.items ≡ walk.old.loading.items) }
    ensures room { IfOk result (λ _. length walk.new.loading.items + length walk.new.names.items < MODULES) }
    ensures paired { IfOk result (λ _. length walk.new.units ≡ length walk.new.names.items) }
    ensures reads { ReadsAlone F.held F.lost F.serves files.old files.new }
    ensures counted { CountsFaults (F.faults files.old) (F.faults files.new) result }
    ensures served { (to : List ℕ) (n : ℕ) → F.serves files.old to n → NoReadFault result }
{
    'each: for import in imports {
        let name = as_text(import.name.as_slice());
        load_one(alloc, files, folders, file, name, walk)?;
    }
    Ok(())
}

// Loads one import of a file, unless it is loaded.
#[cycle(load_file)]
#[tactic(auto, using(crate::proofs::Order::order))]
fn load_one<F: FileBox>(
    alloc: Global,
    files: &mut F,
    folders: &[TextArg],
    file: &TextArg,
    name: &str,
    walk: &mut Walk,
) -> Result<(), LoadFault>
    requires room { length walk.now.loading.items + length walk.now.names.items < MODULES }
    requires paired { length walk.now.units ≡ length walk.now.names.items }
    ensures loads { (held : Held) → F.held files.old ≡ Some held → Seen (λ _. walked walk.new) (Loads held folders.now walk.old.loading.items file.now name.now (walked walk.old) (F.asked files.old) (F.asked files.new)) result }
    ensures loading { IfOk result (λ _. walk.new.loading.items ≡ walk.old.loading.items) }
    ensures room { IfOk result (λ _. length walk.new.loading.items + length walk.new.names.items < MODULES) }
    ensures paired { IfOk result (λ _. length walk.new.units ≡ length walk.new.names.items) }
    ensures reads { ReadsAlone F.held F.lost F.serves files.old files.new }
    ensures counted { CountsFaults (F.faults files.old) (F.faults files.new) result }
    ensures served { (to : List ℕ) (n : ℕ) → F.serves files.old to n → NoReadFault result }
{
    if has(&walk.names, name) {
        return Ok(());
    }
    if has(&walk.loading, name) {
        return Err(LoadFault::Cycle {
            file: file.copy(alloc)?,
            name: TextArg::new(alloc, name)?,
        });
    }
    if 1 + walk.loading.len() + walk.names.len() >= MODULES as usize {
        return Err(LoadFault::TooMany {
            file: file.copy(alloc)?,
        });
    }
    begin_module(alloc, walk, name)?;
    let text = find(alloc, files, folders, name)?;
    load_file(alloc, files, folders, text, walk)?;
    end_module(walk)?;
    Ok(())
}

// Puts a name last among those of the modules being loaded.
fn begin_module(alloc: Global, walk: &mut Walk, name: &str) -> Result<(), Memory>
    ensures loading { IfOk result (λ _. walk.new.loading.items ≡ walk.old.loading.items ++ name.now ∷ []) }
    ensures walked { walked walk.new ≡ walked walk.old }
{
    walk.loading.push(TextArg::new(alloc, name)?)?;
    Ok(())
}

// The last of the modules being loaded is loaded.
fn end_module(walk: &mut Walk) -> Result<(), Memory>
    ensures { (loading : List (List ℕ)) (name : List ℕ) → walk.old.loading.items ≡ loading ++ name ∷ [] → IfOk result (λ _. (walk.new.loading.items ≡ loading) × (walked walk.new ≡ with_name (walked walk.old) name)) }
{
    if let Some(name) = walk.loading.pop() {
        walk.names.push(name)?;
    }
    Ok(())
}
