//! Lists that are mostly short.

ghost use Rattle.std.specs.Prelude.{◌≡◌, [], ◌∷◌, ◌++◌, OnOk};

use ctl_base::Memory;

/// Puts an item last. A list of one or two items has no room for more.
pub fn put<T: Drop>(list: &mut Vec<T>, item: T) -> Result<(), Memory>
    ensures { OnOk result (list.new.items ≡ list.old.items ++ item ∷ []) }
{
    if list.len() < 2 {
        list.reserve_exact(1)?;
    }
    list.push(item)?;
    Ok(())
}
