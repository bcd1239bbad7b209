//! The call that takes memory, run once.

use ctl_base::Memory;
use ctl_program::Definitions;
use ctl_tree::Units;

#[test]
fn the_library_is_defined_first(rt: HostRuntime) -> Result<(), Memory> {
    let definitions = Definitions::new(rt.alloc(), Units::new(rt.alloc()))?;
    assert!(rt; definitions.structs().len() == 1);
    assert!(rt; definitions.constants().len() == 7);
    assert!(rt; definitions.functions().is_empty());
    Ok(())
}
