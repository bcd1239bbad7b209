//! Whether a function of the library takes what it is called with.

ghost use Rattle.std.specs.Prelude.{◌≡◌, ◌==◌, drop, get_or, map, IfOk};
ghost use Rattle.ctl_stdlib.specs.declared.row.Param.{Param as ParamForm};
ghost use Rattle.ctl_types.specs.Library.{shape_of, row_extents, zero_base_of};
ghost use Rattle.ctl_types.specs.Shapes.{locals, open_sizes_of};
ghost use Rattle.ctl_types.specs.Values.{arguments_fit, takes};
ghost use Rattle.ctl_stdlib.specs.Shapes.{base as base_in};
ghost use Rattle.eval_values.specs.Sizes.{sizes_of, given_fits};
ghost use Rattle.eval_library.specs.Means.{opened_from};

use ctl_base::Memory;
use ctl_stdlib::{Base as RowBase, Param, RowShape};
use ctl_types::{Base, OpenSizes, Struct, Value};
use eval_values::{fits, is_within_limit, sizes_fit};
use std::alloc::Global;

/// Whether a function of the library with these parameters takes these open sizes and arguments.
pub fn takes_row(
    alloc: Global,
    structs: &[Struct],
    params: &[Param],
    opens: &[u32],
    frame: &[Option<Value>],
) -> Result<bool, Memory>
    ensures { IfOk result (λ b. b ≡ takes structs.now (map (λ (p : ParamForm). shape_of p.shape) params.now) opens.now frame.now) }
{
    if !(are_open(params, opens.len()) && sizes_fit(opens)) {
        return Ok(false);
    }
    arguments_fit(alloc, structs, params, opens, frame)
}

fn are_open(params: &[Param], count: usize) -> bool
    ensures { result ≡ (count == open_sizes_of (map (λ (p : ParamForm). shape_of p.shape) params.now)) }
{
    let mut left = count;
    for param in params {
        let open = param.shape.open_sizes() as usize;
        if left < open {
            return false;
        }
        left -= open;
    }
    left == 0
}

fn arguments_fit(
    alloc: Global,
    structs: &[Struct],
    params: &[Param],
    opens: &[u32],
    frame: &[Option<Value>],
) -> Result<bool, Memory>
    ensures { IfOk result (λ b. b ≡ arguments_fit structs.now opens.now (locals 0 (map (λ (p : ParamForm). shape_of p.shape) params.now)) frame.now) }
{
    let mut opens = opens;
    let mut i = 0;
    'each: while i < params.len() {
        if i >= frame.len() {
            return Ok(false);
        }
        let shape = params[i].shape;
        if !argument_fits(alloc, structs, &frame[i], shape, opens)? {
            return Ok(false);
        }
        opens = behind(shape.open_sizes(), opens);
        i += 1;
    }
    Ok(i == frame.len())
}

fn argument_fits(
    alloc: Global,
    structs: &[Struct],
    value: &Option<Value>,
    shape: RowShape,
    opens: &[u32],
) -> Result<bool, Memory>
    ensures { IfOk result (λ b. b ≡ given_fits structs.now opens.now (row_extents shape) (zero_base_of (base_in shape)) value.now) }
{
    match value {
        Some(value) => {
            let sizes = row_sizes(alloc, shape, opens)?;
            let base = Some(base_of(shape.base()));
            Ok(fits(structs, value, sizes.as_slice(), base) && is_within_limit(value))
        }
        None => Ok(false),
    }
}

fn base_of(base: RowBase) -> Base
    ensures { result ≡ zero_base_of base }
{
    match base {
        RowBase::Scalar(kind) => Base::Scalar(kind),
        RowBase::Chromaticities => Base::Struct(0),
    }
}

fn behind(count: u32, opens: &[u32]) -> &[u32]
    ensures { result.now ≡ drop count opens.now }
{
    let count = count as usize;
    if count <= opens.len() {
        &opens[count..]
    } else {
        &[]
    }
}

// The sizes of a parameter where the open ones are the first of these.
fn row_sizes(alloc: Global, shape: RowShape, opens: &[u32]) -> Result<OpenSizes, Memory>
    ensures { IfOk result (λ sizes. sizes ≡ sizes_of opens.now (row_extents shape)) }
{
    let mut sizes = opened(alloc, opens, shape.open_sizes())?;
    for size in shape.stated_sizes() {
        sizes.push(*size)?;
    }
    Ok(sizes)
}

// The first of some open sizes.
fn opened(alloc: Global, opens: &[u32], count: u32) -> Result<OpenSizes, Memory>
    ensures { IfOk result (λ sizes. sizes ≡ opened_from opens.now 0 count) }
{
    let mut sizes = OpenSizes::new(alloc);
    for i in 0..count {
        sizes.push(size_at(opens, i))?;
    }
    Ok(sizes)
}

fn size_at(opens: &[u32], i: u32) -> u32
    ensures { result ≡ get_or opens.now i 0 }
{
    match opens.get(i as usize) {
        Some(size) => *size,
        None => 0,
    }
}
