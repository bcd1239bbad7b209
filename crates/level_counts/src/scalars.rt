//! How many scalars values and structs have.

ghost use Rattle.std.specs.Prelude.{◌≡◌, get_or, map, IfOk};
ghost use Rattle.ctl_types.specs.Shapes.{struct_counts, struct_scalars, product};
ghost use Rattle.level_counts.specs.Told.{told, Tells};
ghost use Rattle.level_counts.specs.Shapes.{item_scalars, scalars_in, stated_shape};

use crate::told::{and, times};
use crate::value::{Item, ValueShape, value_of_shape};
use ctl_base::Memory;
use ctl_types::{Field, Struct};
use sqlite_items::Items;
use std::alloc::Global;

fn count_at(counts: &[u64], number: usize) -> u64
    ensures { result ≡ get_or counts.now number 0 }
{
    if number < counts.len() {
        counts[number]
    } else {
        0
    }
}

fn item_scalars(counts: &[u64], item: Item) -> u64
    ensures { result ≡ item_scalars counts.now item }
{
    match item {
        Item::Nothing => 0,
        Item::Scalar => 1,
        Item::Struct(number) => count_at(counts, number as usize),
    }
}

fn product_of(sizes: &[u32]) -> u64
    ensures { result ≡ told (product sizes.now) }
{
    let mut product = 1;
    for size in sizes {
        product = times(product, *size as u64);
    }
    product
}

/// The scalars of a value, by those of each struct.
pub fn scalars_in(counts: &[u64], value: &ValueShape) -> u64
    ensures { result ≡ told (scalars_in counts.now value.now) }
{
    times(
        product_of(value.sizes.as_slice()),
        item_scalars(counts, value.item),
    )
}

// The scalars of a field.
fn field_scalars(alloc: Global, counts: &[u64], field: &Field) -> Result<u64, Memory>
    ensures { Tells (scalars_in counts.now (stated_shape field.now.shape)) result }
{
    let value = value_of_shape(alloc, &field.shape)?;
    Ok(scalars_in(counts, &value))
}

// The scalars of a struct with these fields.
fn struct_scalars(alloc: Global, counts: &[u64], one: &Struct) -> Result<u64, Memory>
    ensures { Tells (struct_scalars counts.now one.now) result }
{
    let fields = one.fields.as_slice();
    let mut scalars = 0;
    for field in fields {
        let more = field_scalars(alloc, counts, field)?;
        scalars = and(scalars, more);
    }
    Ok(scalars)
}

/// The scalars of each struct, each by those before it.
pub fn count_structs(alloc: Global, structs: &[Struct]) -> Result<Items<u64>, Memory>
    ensures { IfOk result (λ counts. counts ≡ map told (struct_counts structs.now)) }
{
    let mut counts = Items::new(alloc);
    for one in structs {
        let scalars = struct_scalars(alloc, counts.as_slice(), one)?;
        counts.push(scalars)?;
    }
    Ok(counts)
}
