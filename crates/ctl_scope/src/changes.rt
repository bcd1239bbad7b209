//! How the blocks and the variables of a function change while it is read.

ghost use Rattle.std.specs.Prelude.{◌≡◌, ◌<◌, ◌≤◌, ◌^◌, true, false, length, Err, IsOk, IfOk, OnOk};
ghost use Rattle.ctl_scope.specs.declared.kind.ScopeFault.TheVariants.{Twice};
ghost use Rattle.ctl_scope.specs.Changes.{entered, left, hidden_from, is_declared, declared, cleared, in_head, with_parameter, in_default, after_default, in_body, after_function};

use crate::{Around, Block, Meaning, NameTable, Scope, ScopeFault, Variable};
use ctl_base::{ByteText, Memory};
use sqlite_items::Items;
use std::alloc::Global;
use std::mem;

impl Scope {
    /// A block begins.
    pub fn enter(&mut self, alloc: Global) -> Result<(), Memory>
        ensures { OnOk result (self.new ≡ entered self.old) }
    {
        let start = number(self.variables.len())?;
        let inner = Block {
            start,
            names: NameTable::new(alloc),
        };
        let around = mem::replace(&mut self.inner, inner);
        self.outer.push(around)?;
        Ok(())
    }

    /// A block ends. Its variables are not visible any more. The outermost block does not end.
    pub fn leave(&mut self)
        ensures { self.new ≡ left self.old }
    {
        match self.outer.pop() {
            Some(around) => {
                hide(&mut self.variables, self.inner.start);
                self.inner = around;
            }
            None => {}
        }
    }

    /// Whether the innermost block has a name.
    pub fn is_declared(&self, name: &[u8]) -> bool
        ensures { result ≡ is_declared self.now.blocks name.now }
    {
        self.inner.names.get(name).is_some()
    }

    /// Declares a variable in the innermost block, and gives its number.
    pub fn declare(
        &mut self,
        alloc: Global,
        name: &[u8],
        variable: Variable,
    ) -> Result<u32, ScopeFault>
        ensures new { IsOk result → is_declared self.old.blocks name.now ≡ false }
        ensures number { IfOk result (λ n. n ≡ length self.old.variables) }
        ensures scope { OnOk result (self.new ≡ declared name.now variable self.old) }
        ensures twice { result ≡ Err Twice → is_declared self.old.blocks name.now ≡ true }
    {
        if self.is_declared(name) {
            return Err(ScopeFault::Twice);
        }
        Ok(self.declare_new(alloc, name, variable)?)
    }

    /// Declares a variable with a new name in the innermost block, and gives its number.
    fn declare_new(&mut self, alloc: Global, name: &[u8], variable: Variable) -> Result<u32, Memory>
        requires { is_declared self.old.blocks name.now ≡ false }
        ensures number { IfOk result (λ n. n ≡ length self.old.variables) }
        ensures scope { OnOk result (self.new ≡ declared name.now variable self.old) }
    {
        let number = number(self.variables.len())?;
        self.variables.push(Some(variable))?;
        self.inner
            .names
            .insert(alloc, name, Meaning::Variable(number))?;
        Ok(number)
    }

    // ---- functions

    /// The head of a function begins. Its parameters stand in a block of their own.
    pub fn enter_head(&mut self, alloc: Global, name: &[u8]) -> Result<(), Memory>
        ensures { OnOk result (self.new ≡ in_head name.now self.old) }
    {
        let around = ByteText::new(alloc, name)?;
        self.clear(alloc, Around::Head(around));
        Ok(())
    }

    /// Declares a parameter with so many open sizes, and gives its number.
    pub fn declare_parameter(
        &mut self,
        alloc: Global,
        name: &[u8],
        variable: Variable,
        opens: u32,
    ) -> Result<u32, ScopeFault>
        ensures new { IsOk result → is_declared self.old.blocks name.now ≡ false }
        ensures number { IfOk result (λ n. n ≡ length self.old.variables) }
        ensures scope { OnOk result (self.new ≡ with_parameter name.now variable opens self.old) }
        ensures twice { result ≡ Err Twice → is_declared self.old.blocks name.now ≡ true }
    {
        let number = self.declare(alloc, name, variable)?;
        match self.opens.checked_add(opens) {
            Some(all) => {
                self.opens = all;
                Ok(number)
            }
            None => Err(ScopeFault::Memory),
        }
    }

    /// The default of a parameter begins. It sees no variable.
    pub fn enter_default(&mut self)
        ensures { self.new ≡ in_default self.old }
    {
        self.sees_variables = false;
    }

    /// The default of a parameter ends.
    pub fn leave_default(&mut self)
        ensures { self.new ≡ after_default self.old }
    {
        self.sees_variables = true;
    }

    /// The body of a function begins.
    pub fn enter_body(&mut self, alloc: Global, name: &[u8]) -> Result<(), Memory>
        ensures { OnOk result (self.new ≡ in_body name.now self.old) }
    {
        self.around = Around::Body(ByteText::new(alloc, name)?);
        Ok(())
    }

    /// A function ends.
    pub fn leave_function(&mut self, alloc: Global)
        ensures { self.new ≡ after_function self.old }
    {
        self.clear(alloc, Around::Outside);
    }

    // No variables, and this function around.
    fn clear(&mut self, alloc: Global, around: Around)
        ensures { self.new ≡ cleared around self.old }
    {
        self.around = around;
        self.sees_variables = true;
        self.inner = Block {
            start: 0,
            names: NameTable::new(alloc),
        };
        self.outer = Items::new(alloc);
        self.variables = Items::new(alloc);
        self.opens = 0;
    }
}

// From this number on no variable is visible any more.
fn hide(variables: &mut Items<Option<Variable>>, start: u32)
    requires { start ≤ length variables.old }
    ensures { variables.new ≡ hidden_from start variables.old }
{
    for number in start as usize..variables.len() {
        variables.set(number, None);
    }
}

// The number of what comes next. More than 32 bits can number have no room.
pub(crate) fn number(count: usize) -> Result<u32, Memory>
    ensures { IfOk result (λ n. n ≡ count) }
{
    match u32::try_from(count) {
        Ok(number) => Ok(number),
        Err(_) => Err(Memory),
    }
}
