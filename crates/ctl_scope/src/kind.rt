//! What can be wrong with a form.

ghost use Rattle.std.specs.Prelude.{◌≡◌};
ghost use Rattle.ctl_scope.specs.declared.kind.ScopeFault.TheVariants.{Memory};

use ctl_base::Memory;

/// Why a form has no meaning. Where two fit one form, the earlier one counts.
#[derive(Clone, Copy, Debug, PartialEq, Eq)]
pub enum CheckKind {
    /// A name, call or field resolves to nothing.
    UnknownName,
    /// The name of a call resolves to nothing and is that of the function around.
    Recursion,
    /// A name stands already in the same scope, namespace, struct or list of parameters.
    Twice,
    /// A name in the place of a shape is no struct.
    NotAType,
    /// A name that is called is no function.
    NotAFunction,
    /// The body of a function calls a function of the greatest depth.
    TooDeep,
    /// A call has too many arguments, or misses one that it needs.
    Arguments,
    /// What is to be assigned may not be.
    NotAssignable,
    /// A shape breaks the rules.
    Mismatch,
    /// A size breaks the rules.
    BadSize,
    /// A function that is to give a value may end without one.
    NoReturn,
    /// The entry gives a value, or has a parameter that none may have.
    BadEntry,
    /// The run of the initialiser of a constant or default traps.
    ConstTrap,
}

/// Why a name is not declared.
#[derive(Clone, Copy, Debug, PartialEq, Eq)]
pub enum ScopeFault {
    /// It stands already in the same scope or namespace.
    Twice,
    Memory,
}

impl From<Memory> for ScopeFault {
    ghost from_gives = { λ _ e. e ≡ Memory };

    fn from(_: Memory) -> ScopeFault {
        ScopeFault::Memory
    }
}
