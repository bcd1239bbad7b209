//! The file of a module, in the first folder that holds one.

ghost use Rattle.std.specs.Prelude.{◌≡◌, ◌≤◌, [], ◌∷◌, ℕ, List, Some, IfOk, IfSome, length};
ghost use Rattle.std.specs.FinMap as map;
ghost use Rattle.ctl_base.specs.declared.limits.TheConstants.{TEXT_BYTES};
ghost use Rattle.outside.specs.Files.{Held};
ghost use Rattle.outside.specs.ReadsAlone.{ReadsAlone};
ghost use Rattle.module_path.specs.ModuleFiles.{module_files, module_text};
ghost use Rattle.module_path.specs.LoadOrder.{Fetches};
ghost use Rattle.module_path.specs.Loading.{Seen, CountsFaults, NoReadFault};
ghost use Rattle.module_path.specs.Means.{Tries, source_of};

use crate::fault::LoadFault;
use crate::folders::file_in;
use ctl_base::limits::TEXT_BYTES;
use ctl_base::{ByteText, TextArg};
use outside::{FetchFault, Fetched, FileBox};
use std::alloc::Global;

// A file that was fetched.
#[derive(Drop)]
pub(crate) struct SourceFile {
    pub(crate) file: TextArg,
    pub(crate) bytes: ByteText,
}

// The file of this name, if it is held.
pub(crate) fn fetch_file<F: FileBox>(
    alloc: Global,
    files: &mut F,
    file: TextArg,
) -> Result<Option<SourceFile>, LoadFault>
    ensures tries { (held : Held) → F.held files.old ≡ Some held → Tries (map.get held file) file (F.asked files.old) (F.asked files.new) result }
    ensures short { IfOk result (λ found. IfSome found (λ f. length f.bytes ≤ TEXT_BYTES)) }
    ensures reads { ReadsAlone F.held F.lost F.serves files.old files.new }
    ensures counted { CountsFaults (F.faults files.old) (F.faults files.new) result }
    ensures served { (to : List ℕ) (n : ℕ) → F.serves files.old to n → NoReadFault result }
{
    match files.fetch(alloc, file.as_str(), TEXT_BYTES) {
        Ok(Fetched::Bytes(bytes)) => Ok(Some(SourceFile { file, bytes })),
        Ok(Fetched::Absent) => Ok(None),
        Ok(Fetched::TooLong { limit: _ }) => Err(LoadFault::TooLong { file }),
        Err(FetchFault::Failed) => Err(LoadFault::ReadFault { name: file }),
        Err(FetchFault::Memory) => Err(LoadFault::Memory),
    }
}

// The file of a module: that in the first folder which holds one.
pub(crate) fn find<F: FileBox>(
    alloc: Global,
    files: &mut F,
    folders: &[TextArg],
    name: &str,
) -> Result<SourceFile, LoadFault>
    ensures finds { (held : Held) → F.held files.old ≡ Some held → Seen source_of (Fetches (module_files held folders.now name.now) (module_text held folders.now name.now) (F.asked files.old) (F.asked files.new)) result }
    ensures short { IfOk result (λ f. length f.bytes ≤ TEXT_BYTES) }
    ensures reads { ReadsAlone F.held F.lost F.serves files.old files.new }
    ensures counted { CountsFaults (F.faults files.old) (F.faults files.new) result }
    ensures served { (to : List ℕ) (n : ℕ) → F.serves files.old to n → NoReadFault result }
{
    'each: for folder in folders {
        let file = file_in(alloc, folder, name)?;
        if let Some(found) = fetch_file(alloc, files, file)? {
            return Ok(found);
        }
    }
    Err(LoadFault::NotFound {
        name: TextArg::new(alloc, name)?,
    })
}
