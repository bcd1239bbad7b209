//! What is known at a place of a program.

ghost use Rattle.std.specs.Prelude.{◌≡◌, true, length, if◌then◌else◌, bytes_eq, IfOk};
ghost use Rattle.ctl_scope.specs.declared.kind.CheckKind.TheVariants.{UnknownName, Recursion};
ghost use Rattle.ctl_scope.specs.Names.{are_distinct};
ghost use Rattle.ctl_scope.specs.Scope.{IsScope, visible, unknown_call};
ghost use Rattle.ctl_scope.specs.Changes.{library_scope};

use crate::look_up::is_plain;
use crate::{Around, Block, CheckKind, NameTable, Variable};
use ctl_base::{ByteText, Memory};
use ctl_tree::QualifiedName;
use sqlite_items::Items;
use std::alloc::Global;
use std::marker::Model;

/// What is known at a place of a program: the definitions so far by their whole names, the
/// namespaces and the function around, and the variables from the innermost block outwards.
#[derive(Drop)]
pub struct Scope {
    pub(crate) names: NameTable,
    pub(crate) counts: Items<u32>,
    pub(crate) constants: u32,
    pub(crate) depths: Items<u32>,
    pub(crate) spaces: Items<ByteText>,
    pub(crate) unit: u32,
    pub(crate) around: Around,
    pub(crate) sees_variables: bool,
    pub(crate) inner: Block,
    /// The outermost first.
    pub(crate) outer: Items<Block>,
    pub(crate) variables: Items<Option<Variable>>,
    pub(crate) opens: u32,
}

impl Model for Scope {
    ghost use Rattle.std.specs.Prelude.{◌∷◌, reverse};
    ghost use Rattle.ctl_scope.specs.Scope.{ScopeForm, IsScope, scope_code};

    ghost Value = { ScopeForm };

    ghost coded = { scope_code };

    ghost view = { λ s. record { names = s.names; counts = s.counts; constants = s.constants; depths = s.depths; spaces = s.spaces; unit = s.unit; around = s.around; sees_variables = s.sees_variables; blocks = s.inner ∷ reverse s.outer; variables = s.variables; opens = s.opens } };

    ghost invariant = { λ s. IsScope (record { names = s.names; counts = s.counts; constants = s.constants; depths = s.depths; spaces = s.spaces; unit = s.unit; around = s.around; sees_variables = s.sees_variables; blocks = s.inner ∷ reverse s.outer; variables = s.variables; opens = s.opens }) };
}

impl Scope {
    /// Before all modules the library alone is known.
    pub fn new(alloc: Global) -> Result<Scope, Memory>
        ensures { IfOk result (λ s. s ≡ library_scope) }
    {
        let mut counts = Items::new(alloc);
        counts.push(8)?;
        Ok(Scope {
            names: NameTable::new(alloc),
            counts,
            constants: 7,
            depths: Items::new(alloc),
            spaces: Items::new(alloc),
            unit: 0,
            around: Around::Outside,
            sees_variables: true,
            inner: Block {
                start: 0,
                names: NameTable::new(alloc),
            },
            outer: Items::new(alloc),
            variables: Items::new(alloc),
            opens: 0,
        })
    }

    /// Each meaning has a number that is there.
    pub fn keeps_rules(&self)
        ensures { IsScope self.now }
    {
        let _unit = &self.unit;
    }

    /// No two whole names are equal.
    pub fn names_differ(&self)
        ensures { are_distinct self.now.names ≡ true }
    {
        self.names.are_distinct();
    }

    /// The scalars of each struct.
    pub fn counts(&self) -> &[u32]
        ensures { result.now ≡ self.now.counts }
    {
        self.counts.as_slice()
    }

    /// How many constants are defined.
    pub fn constants(&self) -> u32
        ensures { result ≡ self.now.constants }
    {
        self.constants
    }

    /// The depth of each function.
    pub fn depths(&self) -> &[u32]
        ensures { result.now ≡ self.now.depths }
    {
        self.depths.as_slice()
    }

    /// The place of the module in load order.
    pub fn unit(&self) -> u32
        ensures { result ≡ self.now.unit }
    {
        self.unit
    }

    pub fn around(&self) -> &Around
        ensures { result.now ≡ self.now.around }
    {
        &self.around
    }

    /// The variables that are seen, by their numbers.
    pub fn variables(&self) -> &[Option<Variable>]
        ensures { result.now ≡ visible self.now }
    {
        if self.sees_variables {
            self.variables.as_slice()
        } else {
            &[]
        }
    }

    /// How many variables were declared in the function so far, its parameters with them.
    pub fn declared(&self) -> usize
        ensures { result ≡ length self.now.variables }
    {
        self.variables.len()
    }

    /// How many open sizes the parameters of the function have.
    pub fn opens(&self) -> u32
        ensures { result ≡ self.now.opens }
    {
        self.opens
    }

    /// What is wrong with a call of a name that means nothing.
    pub fn unknown_call(&self, name: &QualifiedName) -> CheckKind
        ensures { result ≡ unknown_call self.now name.now }
    {
        if !is_plain(name) {
            return CheckKind::UnknownName;
        }
        match &self.around {
            Around::Outside => CheckKind::UnknownName,
            Around::Head(function) => unknown_within(function.as_slice(), name.name.as_slice()),
            Around::Body(function) => unknown_within(function.as_slice(), name.name.as_slice()),
        }
    }
}

// A call of a name that means nothing, in a function.
fn unknown_within(function: &[u8], name: &[u8]) -> CheckKind
    ensures { result ≡ if bytes_eq function.now name.now then Recursion else UnknownName }
{
    if function == name {
        CheckKind::Recursion
    } else {
        CheckKind::UnknownName
    }
}
