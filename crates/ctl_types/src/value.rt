//! Values.

ghost use Rattle.std.specs.Prelude.{◌≡◌, ◌++◌, Some, IfOk, OnOk};
ghost use Rattle.std.specs.Option.{option_copied};
ghost use Rattle.ctl_types.specs.Values.{flat, flat_all, length_of, part_of};

use crate::Scalar;
use ctl_base::Memory;
use fix_num::Fix;
use sqlite_items::Items;
use std::alloc::Global;

/// A scalar, the elements of an array, or the fields of a struct in their order.
#[derive(Drop)]
pub enum Value {
    One(Scalar),
    List(Items<Value>),
    Fields(Items<Value>),
}

impl Value {
    /// An equal value.
    #[cycle(copy)]
    pub fn copy(&self, alloc: Global) -> Result<Value, Memory>
        ensures { IfOk result (λ v. v ≡ self.now) }
    {
        match self {
            Value::One(scalar) => Ok(Value::One(*scalar)),
            Value::List(parts) => Ok(Value::List(copies(alloc, parts.as_slice())?)),
            Value::Fields(parts) => Ok(Value::Fields(copies(alloc, parts.as_slice())?)),
        }
    }

    /// Puts its scalars, in their order and as words, behind those that are there.
    #[cycle(words)]
    pub fn append_words(&self, words: &mut Items<Fix>) -> Result<(), Memory>
        ensures { OnOk result (words.new ≡ words.old ++ flat self.now) }
    {
        match self {
            Value::One(scalar) => {
                words.push(scalar.word())?;
                Ok(())
            }
            Value::List(parts) => append_all(parts.as_slice(), words),
            Value::Fields(parts) => append_all(parts.as_slice(), words),
        }
    }

    /// An element of an array or a field of a struct, by its number.
    pub fn part(&self, number: usize) -> Option<&Value>
        ensures { option_copied result ≡ part_of (Some self.now) number }
    {
        match self {
            Value::One(_) => None,
            Value::List(parts) => parts.get(number),
            Value::Fields(parts) => parts.get(number),
        }
    }

    /// How many elements an array has.
    pub fn len(&self) -> usize
        ensures { result ≡ length_of (Some self.now) }
    {
        match self {
            Value::One(_) => 0,
            Value::List(parts) => parts.len(),
            Value::Fields(_) => 0,
        }
    }
}

// Equal values in the same order.
#[cycle(copy)]
fn copies(alloc: Global, parts: &[Value]) -> Result<Items<Value>, Memory>
    ensures { IfOk result (λ copied. copied ≡ parts.now) }
{
    let mut copied = Items::new(alloc);
    for part in parts {
        copied.push(part.copy(alloc)?)?;
    }
    Ok(copied)
}

// Puts the scalars of all values behind those that are there.
#[cycle(words)]
fn append_all(parts: &[Value], words: &mut Items<Fix>) -> Result<(), Memory>
    ensures { OnOk result (words.new ≡ words.old ++ flat_all parts.now) }
{
    for part in parts {
        part.append_words(words)?;
    }
    Ok(())
}
