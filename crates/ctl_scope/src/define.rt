//! How definitions and namespaces come to have names.

ghost use Rattle.std.specs.Prelude.{◌≡◌, true, false, length, Err, IsOk, IfOk, OnOk};
ghost use Rattle.ctl_scope.specs.declared.kind.ScopeFault.TheVariants.{Twice};
ghost use Rattle.ctl_scope.specs.Names.{meaning_in};
ghost use Rattle.ctl_scope.specs.Scope.{is_definition};
ghost use Rattle.ctl_scope.specs.Changes.{in_unit, prefix, whole_name, is_defined, with_named, struct_counted, constant_counted, function_counted, with_struct, with_constant, with_function, in_space, out_of_space, is_other, with_space};

use crate::changes::number;
use crate::{Meaning, Scope, ScopeFault};
use ctl_base::{ByteText, Memory};
use std::alloc::Global;

impl Scope {
    /// A module begins, by its place in load order.
    pub fn enter_unit(&mut self, unit: u32)
        ensures { self.new ≡ in_unit unit self.old }
    {
        self.unit = unit;
    }

    /// A name with the namespaces around in front, as `a::b::x`.
    pub fn whole_name(&self, alloc: Global, name: &[u8]) -> Result<ByteText, Memory>
        ensures { IfOk result (λ text. text ≡ whole_name self.now name.now) }
    {
        let mut text = Vec::from_slice(alloc, prefix(self.spaces.as_slice()))?;
        text.extend_from_slice(name)?;
        Ok(ByteText::from_vec(text))
    }

    /// Whether the namespace around has a name.
    pub fn is_defined(&self, alloc: Global, name: &[u8]) -> Result<bool, Memory>
        ensures { IfOk result (λ b. b ≡ is_defined self.now name.now) }
    {
        Ok(self.meaning_here(alloc, name)?.is_some())
    }

    /// Defines a struct of so many scalars, and gives its number.
    pub fn define_struct(
        &mut self,
        alloc: Global,
        name: &[u8],
        scalars: u32,
    ) -> Result<u32, ScopeFault>
        ensures new { IsOk result → is_defined self.old name.now ≡ false }
        ensures number { IfOk result (λ n. n ≡ length self.old.counts) }
        ensures scope { OnOk result (self.new ≡ with_struct name.now scalars self.old) }
        ensures twice { result ≡ Err Twice → is_defined self.old name.now ≡ true }
    {
        let number = self.count_struct(scalars)?;
        self.define(alloc, name, Meaning::Struct(number))?;
        Ok(number)
    }

    /// Defines a constant, and gives its number.
    pub fn define_constant(&mut self, alloc: Global, name: &[u8]) -> Result<u32, ScopeFault>
        ensures new { IsOk result → is_defined self.old name.now ≡ false }
        ensures number { IfOk result (λ n. n ≡ self.old.constants) }
        ensures scope { OnOk result (self.new ≡ with_constant name.now self.old) }
        ensures twice { result ≡ Err Twice → is_defined self.old name.now ≡ true }
    {
        let number = self.count_constant()?;
        self.define(alloc, name, Meaning::Constant(number))?;
        Ok(number)
    }

    /// Defines a function of this depth, and gives its number.
    pub fn define_function(
        &mut self,
        alloc: Global,
        name: &[u8],
        depth: u32,
    ) -> Result<u32, ScopeFault>
        ensures new { IsOk result → is_defined self.old name.now ≡ false }
        ensures number { IfOk result (λ n. n ≡ length self.old.depths) }
        ensures scope { OnOk result (self.new ≡ with_function name.now depth self.old) }
        ensures twice { result ≡ Err Twice → is_defined self.old name.now ≡ true }
    {
        let number = self.count_function(depth)?;
        self.define(alloc, name, Meaning::Function(number))?;
        Ok(number)
    }

    // Counts a struct of so many scalars, and gives its number.
    fn count_struct(&mut self, scalars: u32) -> Result<u32, Memory>
        ensures number { IfOk result (λ n. n ≡ length self.old.counts) }
        ensures scope { OnOk result (self.new ≡ struct_counted scalars self.old) }
    {
        let number = number(self.counts.len())?;
        self.counts.push(scalars)?;
        Ok(number)
    }

    // Counts a constant, and gives its number.
    fn count_constant(&mut self) -> Result<u32, Memory>
        ensures number { IfOk result (λ n. n ≡ self.old.constants) }
        ensures scope { OnOk result (self.new ≡ constant_counted self.old) }
    {
        let number = self.constants;
        match number.checked_add(1) {
            Some(next) => {
                self.constants = next;
                Ok(number)
            }
            None => Err(Memory),
        }
    }

    // Counts a function of this depth, and gives its number.
    fn count_function(&mut self, depth: u32) -> Result<u32, Memory>
        ensures number { IfOk result (λ n. n ≡ length self.old.depths) }
        ensures scope { OnOk result (self.new ≡ function_counted depth self.old) }
    {
        let number = number(self.depths.len())?;
        self.depths.push(depth)?;
        Ok(number)
    }

    // Gives a name of the namespace around its meaning, whose number is there.
    fn define(&mut self, alloc: Global, name: &[u8], meaning: Meaning) -> Result<(), ScopeFault>
        requires { is_definition (length self.old.counts) self.old.constants (length self.old.depths) meaning ≡ true }
        ensures new { IsOk result → is_defined self.old name.now ≡ false }
        ensures scope { OnOk result (self.new ≡ with_named name.now meaning self.old) }
        ensures twice { result ≡ Err Twice → is_defined self.old name.now ≡ true }
    {
        let text = self.whole_name(alloc, name)?;
        if self.names.get(text.as_slice()).is_some() {
            return Err(ScopeFault::Twice);
        }
        self.names.insert(alloc, text.as_slice(), meaning)?;
        Ok(())
    }

    // ---- namespaces

    /// A namespace begins.
    pub fn enter_space(&mut self, alloc: Global, name: &[u8]) -> Result<(), Memory>
        ensures { OnOk result (self.new ≡ in_space name.now self.old) }
    {
        let mut text = Vec::from_slice(alloc, prefix(self.spaces.as_slice()))?;
        text.extend_from_slice(name)?;
        text.extend_from_slice(b"::")?;
        self.spaces.push(ByteText::from_vec(text))?;
        Ok(())
    }

    /// The innermost namespace ends, which is there, and has this name in the one around it.
    pub fn leave_space(&mut self, alloc: Global, name: &[u8]) -> Result<(), ScopeFault>
        ensures new { IsOk result → is_other (out_of_space self.old) name.now ≡ false }
        ensures scope { OnOk result (self.new ≡ with_space name.now (out_of_space self.old)) }
        ensures twice { result ≡ Err Twice → is_other (out_of_space self.old) name.now ≡ true }
    {
        self.end_space();
        self.name_space(alloc, name)
    }

    // The innermost namespace ends.
    fn end_space(&mut self)
        ensures { self.new ≡ out_of_space self.old }
    {
        let _ended = self.spaces.pop();
    }

    // A namespace has its name, which may be that of an earlier one.
    fn name_space(&mut self, alloc: Global, name: &[u8]) -> Result<(), ScopeFault>
        ensures new { IsOk result → is_other self.old name.now ≡ false }
        ensures scope { OnOk result (self.new ≡ with_space name.now self.old) }
        ensures twice { result ≡ Err Twice → is_other self.old name.now ≡ true }
    {
        match self.meaning_here(alloc, name)? {
            None => self.define(alloc, name, Meaning::Namespace),
            Some(Meaning::Namespace) => Ok(()),
            Some(_) => Err(ScopeFault::Twice),
        }
    }

    // What a name of the namespace around stands for.
    fn meaning_here(&self, alloc: Global, name: &[u8]) -> Result<Option<Meaning>, Memory>
        ensures { IfOk result (λ m. m ≡ meaning_in (whole_name self.now name.now) self.now.names) }
    {
        let text = self.whole_name(alloc, name)?;
        Ok(self.names.get(text.as_slice()))
    }
}

// What stands in front of a whole name in the innermost namespace.
fn prefix(spaces: &[ByteText]) -> &[u8]
    ensures { result.now ≡ prefix spaces.now }
{
    match spaces.last() {
        Some(space) => space.as_slice(),
        None => &[],
    }
}
