//! Variables.

ghost use Rattle.std.specs.Prelude.{◌≡◌};

use ctl_types::LocalShape;
use std::marker::Model;

/// A variable of a function: its shape, and whether it may be assigned.
#[derive(Drop)]
pub struct Variable {
    shape: LocalShape,
    is_assignable: bool,
}

impl Model for Variable {
    ghost use Rattle.ctl_types.specs.Typing.{Variable as TypingVariable};
    ghost use Rattle.ctl_scope.specs.Variables.{variable_code};

    ghost Value = { TypingVariable };

    ghost coded = { variable_code };

    ghost view = { λ v. record { shape = v.shape; is_assignable = v.is_assignable } };
}

impl Variable {
    pub fn new(shape: LocalShape, is_assignable: bool) -> Variable
        ensures { result ≡ record { shape = shape; is_assignable = is_assignable } }
    {
        Variable {
            shape,
            is_assignable,
        }
    }

    pub fn shape(&self) -> &LocalShape
        ensures { result.now ≡ self.now.shape }
    {
        &self.shape
    }

    pub fn is_assignable(&self) -> bool
        ensures { result ≡ self.now.is_assignable }
    {
        self.is_assignable
    }
}
