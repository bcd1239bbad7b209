//! Sizes as numbers.

ghost use Rattle.std.specs.Prelude.{◌≡◌, map, IfOk};
ghost use Rattle.ctl_types.specs.Shapes.{size_in};

use ctl_base::Memory;
use ctl_types::{OpenSizes, Size};
use std::alloc::Global;

/// Sizes as numbers, in a call with these open sizes. A few take no memory.
pub fn sizes_in(alloc: Global, opens: &[u32], sizes: &[Size]) -> Result<OpenSizes, Memory>
    ensures { IfOk result (λ all. all ≡ map (size_in opens.now) sizes.now) }
{
    let mut all = OpenSizes::new(alloc);
    for size in sizes {
        all.push(size_in(opens, *size))?;
    }
    Ok(all)
}

fn size_in(opens: &[u32], size: Size) -> u32
    ensures { result ≡ size_in opens.now size }
{
    match size {
        Size::Stated(size) => size,
        Size::Open(number) => match opens.get(number as usize) {
            Some(size) => *size,
            None => 0,
        },
    }
}
