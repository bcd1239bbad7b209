//! The definitions of a program, as far as they are checked.

ghost use Rattle.std.specs.Prelude.{◌≡◌, true, IfOk, IfErr};
ghost use Rattle.ctl_types.specs.Definitions.{point, chromaticities, constant_of, library_constants};
ghost use Rattle.ctl_types.specs.Scoping.{IsDefined, library_definitions, struct_stands, constant_stands, function_stands, scene_before, scene_of, with_struct, with_constant, with_function};
ghost use Rattle.ctl_types.specs.Shapes.{struct_counts};

use ctl_base::{ByteText, Memory, ScalarKind};
use ctl_stdlib::LibraryConstant;
use ctl_tree::Units;
use ctl_types::{Constant, Extent, Field, Function, Scalar, Shape, Struct, Value};
use fix_num::{arithmetic_stays_in_range, half_keeps};
use sqlite_items::{Boxed, Items};
use std::alloc::Global;
use std::marker::Model;
use std::rc::Rc;

/// The units of a program with the structs, constants and functions that are defined so far, those of
/// the library first. They keep the rules: every name and node is there, a function stands before
/// its callers, every form is well typed, and the values of constants and defaults are of their shapes.
/// The units can be shared, so that their forms are read while definitions are added.
#[derive(Drop)]
pub struct Definitions {
    units: Rc<Units>,
    structs: Items<Struct>,
    constants: Items<Constant>,
    functions: Items<Function>,
}

impl Model for Definitions {
    ghost use Rattle.ctl_types.specs.Definitions.{Defined, defined_code};
    ghost use Rattle.ctl_types.specs.Scoping.{IsDefined};

    ghost Value = { Defined };

    ghost coded = { defined_code };

    ghost view = { λ d. record { units = d.units.value; structs = d.structs; constants = d.constants; functions = d.functions } };

    ghost invariant = { λ d. IsDefined (record { units = d.units.value; structs = d.structs; constants = d.constants; functions = d.functions }) };
}

impl Definitions {
    /// The definitions that stand before all modules: the struct and the constants of the library.
    pub fn new(alloc: Global, units: Units) -> Result<Definitions, Memory>
        ensures { IfOk result (λ d. d ≡ library_definitions units) }
    {
        let mut structs = Items::new(alloc);
        structs.push(chromaticities(alloc)?)?;
        let constants = library_constants(alloc)?;
        half_keeps();
        arithmetic_stays_in_range();
        Ok(Definitions {
            units: shared(alloc, units)?,
            structs,
            constants,
            functions: Items::new(alloc),
        })
    }

    pub fn units(&self) -> &Units
        ensures { result.now ≡ self.now.units }
    {
        self.units.as_ref()
    }

    /// The units, which the definitions go on keeping.
    pub fn shared_units(&self) -> Result<Rc<Units>, Memory>
        ensures { IfOk result (λ units. units.value ≡ self.now.units) }
    {
        match self.units.clone() {
            Ok(units) => Ok(units),
            Err(_) => Err(Memory),
        }
    }

    pub fn structs(&self) -> &[Struct]
        ensures { result.now ≡ self.now.structs }
    {
        self.structs.as_slice()
    }

    pub fn constants(&self) -> &[Constant]
        ensures { result.now ≡ self.now.constants }
    {
        self.constants.as_slice()
    }

    pub fn functions(&self) -> &[Function]
        ensures { result.now ≡ self.now.functions }
    {
        self.functions.as_slice()
    }

    /// The rules are kept.
    pub fn keep_rules(&self)
        ensures { IsDefined self.now }
    {
        let _units = &self.units;
    }

    /// Defines a struct that stands after those before it. Definitions that have no room for it stay as they were.
    pub fn push_struct(&mut self, definition: Struct) -> Result<(), Memory>
        requires { struct_stands self.old.structs (struct_counts self.old.structs) definition ≡ true }
        ensures last { IfOk result (λ _. self.new ≡ with_struct self.old definition) }
        ensures kept { IfErr result (λ _. self.new ≡ self.old) }
    {
        self.structs.push(definition)?;
        Ok(())
    }

    /// Defines a constant whose value is of its shape. Definitions that have no room for it stay as they were.
    pub fn push_constant(&mut self, constant: Constant) -> Result<(), Memory>
        requires { constant_stands (scene_before self.old) constant ≡ true }
        ensures last { IfOk result (λ _. self.new ≡ with_constant self.old constant) }
        ensures kept { IfErr result (λ _. self.new ≡ self.old) }
    {
        self.constants.push(constant)?;
        Ok(())
    }

    /// Defines a function that is well typed after those before it. Definitions that have no room for it stay as they were.
    pub fn push_function(&mut self, function: Function) -> Result<(), Memory>
        requires { function_stands (scene_of self.old) function ≡ true }
        ensures last { IfOk result (λ _. self.new ≡ with_function self.old function) }
        ensures kept { IfErr result (λ _. self.new ≡ self.old) }
    {
        self.functions.push(function)?;
        Ok(())
    }
}

// Units that can be shared.
fn shared(alloc: Global, units: Units) -> Result<Rc<Units>, Memory>
    ensures { IfOk result (λ shared. shared.value ≡ units) }
{
    match Rc::new(alloc, units) {
        Ok(shared) => Ok(shared),
        Err(_) => Err(Memory),
    }
}

// The struct of four points.
fn chromaticities(alloc: Global) -> Result<Struct, Memory>
    ensures { IfOk result (λ s. s ≡ chromaticities) }
{
    let mut fields = Items::new(alloc);
    fields.push(point(alloc, b"red")?)?;
    fields.push(point(alloc, b"green")?)?;
    fields.push(point(alloc, b"blue")?)?;
    fields.push(point(alloc, b"white")?)?;
    Ok(Struct { fields })
}

// A field of two floats.
fn point(alloc: Global, name: &[u8]) -> Result<Field, Memory>
    ensures { IfOk result (λ field. field ≡ point name.now) }
{
    let float = Boxed::new(alloc, Shape::Scalar(ScalarKind::Float))?;
    Ok(Field {
        name: ByteText::new(alloc, name)?,
        shape: Shape::Array(float, Extent::Stated(2)),
    })
}

// The constants of the library in the order of their numbers.
const CONSTANTS: [LibraryConstant; 7] = [
    LibraryConstant::Pi,
    LibraryConstant::Euler,
    LibraryConstant::HalfMax,
    LibraryConstant::FloatMax,
    LibraryConstant::IntMax,
    LibraryConstant::IntMin,
    LibraryConstant::UnsignedMax,
];

fn library_constants(alloc: Global) -> Result<Items<Constant>, Memory>
    ensures { IfOk result (λ constants. constants ≡ library_constants) }
{
    let mut constants = Items::new(alloc);
    for constant in CONSTANTS.as_slice() {
        constants.push(constant_of(*constant))?;
    }
    Ok(constants)
}

// A constant of the library with its shape.
fn constant_of(constant: LibraryConstant) -> Constant
    ensures { result ≡ constant_of constant }
{
    half_keeps();
    arithmetic_stays_in_range();
    let kind = constant.kind();
    Constant {
        shape: Shape::Scalar(kind),
        value: Value::One(Scalar::from_word(kind, constant.word())),
    }
}
