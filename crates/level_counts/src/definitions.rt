//! The definitions of a program, with the scalars of each struct.

ghost use Rattle.std.specs.Prelude.{◌≡◌, IfOk, map, slice_get, Some};
ghost use Rattle.ctl_types.specs.Shapes.{struct_counts, field_shapes, field_shapes_in};
ghost use Rattle.level_counts.specs.Told.{told};
ghost use Rattle.level_counts.specs.Shapes.{scalars_in, constant_value, callee_value, field_in, result_value, stated_if};

use crate::scalars::{count_structs, scalars_in};
use crate::value::{Item, ValueShape, value_if, value_of_shape};
use ctl_base::Memory;
use ctl_types::{Callee, Constant, Function, Struct, row_of};
use sqlite_items::Items;
use std::alloc::Global;
use std::marker::Model;

/// The structs, the constants and the functions of a program.
#[derive(Drop)]
pub struct Definitions<'a> {
    structs: &'a [Struct],
    constants: &'a [Constant],
    functions: &'a [Function],
    counts: Items<u64>,
}

impl<'a> Model for Definitions<'a> {
    ghost use Rattle.std.specs.Prelude.{◌≡◌, map};
    ghost use Rattle.ctl_types.specs.Shapes.{struct_counts, field_shapes, field_shapes_in};
    ghost use Rattle.level_counts.specs.Told.{told};
    ghost use Rattle.level_counts.specs.Shapes.{DefinitionsForm, definitions_code};

    ghost Value = { DefinitionsForm };

    ghost coded = { definitions_code };

    ghost view = { λ s. record { structs = s.structs.now; constants = s.constants.now; functions = s.functions.now } };

    ghost invariant = { λ s. s.counts ≡ map told (struct_counts s.structs.now) };
}

impl<'a> Definitions<'a> {
    /// The definitions of a program.
    pub fn new(
        alloc: Global,
        structs: &'a [Struct],
        constants: &'a [Constant],
        functions: &'a [Function],
    ) -> Result<Definitions<'a>, Memory>
        ensures { IfOk result (λ d. d ≡ record { structs = structs.now; constants = constants.now; functions = functions.now }) }
    {
        let counts = count_structs(alloc, structs)?;
        Ok(Definitions {
            structs,
            constants,
            functions,
            counts,
        })
    }

    /// The scalars of a value.
    pub fn scalars(&self, value: &ValueShape) -> u64
        ensures { result ≡ told (scalars_in (struct_counts self.now.structs) value.now) }
    {
        scalars_in(self.counts.as_slice(), value)
    }

    pub fn constants(&self) -> &[Constant]
        ensures { result.now ≡ self.now.constants }
    {
        self.constants
    }

    /// The value of a constant.
    pub fn constant(&self, alloc: Global, number: u32) -> Result<ValueShape, Memory>
        ensures { IfOk result (λ value. value ≡ constant_value (slice_get self.now.constants number)) }
    {
        match self.constants.get(number as usize) {
            Some(constant) => value_of_shape(alloc, &constant.shape),
            None => Ok(ValueShape::alone(alloc, Item::Nothing)),
        }
    }

    fn result_of(&self, alloc: Global, number: u32) -> Result<ValueShape, Memory>
        ensures { IfOk result (λ value. value ≡ result_value (slice_get self.now.functions number)) }
    {
        match self.functions.get(number as usize) {
            Some(function) => value_if(alloc, &function.result),
            None => Ok(ValueShape::alone(alloc, Item::Nothing)),
        }
    }

    /// The value of a call.
    pub fn called(&self, alloc: Global, callee: Callee) -> Result<ValueShape, Memory>
        ensures { IfOk result (λ value. value ≡ callee_value self.now.functions callee) }
    {
        match callee {
            Callee::Program(number) => self.result_of(alloc, number),
            Callee::Library(id) => {
                let row = row_of(alloc, id)?;
                value_if(alloc, &row.result)
            }
        }
    }

    /// A field of what is no array.
    pub fn field(&self, alloc: Global, item: Item, number: u32) -> Result<ValueShape, Memory>
        ensures { IfOk result (λ value. value ≡ field_in self.now.structs item number) }
    {
        match item {
            Item::Nothing => Ok(ValueShape::alone(alloc, Item::Nothing)),
            Item::Scalar => Ok(ValueShape::alone(alloc, Item::Nothing)),
            Item::Struct(one) => self.field_of(alloc, one, number),
        }
    }

    fn field_of(&self, alloc: Global, one: u32, number: u32) -> Result<ValueShape, Memory>
        ensures { IfOk result (λ value. value ≡ stated_if (slice_get (field_shapes self.now.structs one) number)) }
    {
        match self.structs.get(one as usize) {
            Some(found) => field_at(alloc, found, number),
            None => Ok(ValueShape::alone(alloc, Item::Nothing)),
        }
    }
}

fn field_at(alloc: Global, one: &Struct, number: u32) -> Result<ValueShape, Memory>
    ensures { IfOk result (λ value. value ≡ stated_if (slice_get (field_shapes_in (Some one.now)) number)) }
{
    match one.fields.get(number as usize) {
        Some(field) => value_of_shape(alloc, &field.shape),
        None => Ok(ValueShape::alone(alloc, Item::Nothing)),
    }
}
