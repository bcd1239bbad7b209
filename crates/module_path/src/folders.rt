//! The folders of a module path.

ghost use Rattle.std.specs.Prelude.{◌≡◌, ◌++◌, IfOk};
ghost use Rattle.module_path.specs.ModuleFiles.{folders_of as folders_in, file_in as named};
ghost use Rattle.module_path.specs.Means.{as_folder};

use ctl_base::{Memory, TextArg};
use std::alloc::Global;

// The parts of the path between colons, without the empty ones.
pub(crate) fn folders_of(alloc: Global, path: &str) -> Result<Vec<TextArg>, Memory>
    ensures { IfOk result (λ f. f.items ≡ folders_in path.now) }
{
    let mut folders = Vec::new(alloc);
    let mut rest = path;
    'each: while let Some((folder, more)) = rest.split_once(':') {
        put(alloc, &mut folders, folder)?;
        rest = more;
    }
    put(alloc, &mut folders, rest)?;
    Ok(folders)
}

// Puts a folder last, unless it is empty.
fn put(alloc: Global, folders: &mut Vec<TextArg>, folder: &str) -> Result<(), Memory>
    ensures { IfOk result (λ _. folders.new.items ≡ folders.old.items ++ as_folder folder.now) }
{
    if folder.is_empty() {
        return Ok(());
    }
    folders.push(TextArg::new(alloc, folder)?)?;
    Ok(())
}

// The file of a module in a folder.
pub(crate) fn file_in(alloc: Global, folder: &TextArg, name: &str) -> Result<TextArg, Memory>
    ensures { IfOk result (λ file. file ≡ named folder.now name.now) }
{
    let mut file = String::from_str(alloc, folder.as_str())?;
    file.push_str("/")?;
    file.push_str(name)?;
    file.push_str(".ctl")?;
    TextArg::new(alloc, file.as_str())
}
