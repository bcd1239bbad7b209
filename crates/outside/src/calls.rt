//! The calls on a box of files so far. They stand in proofs alone, and take no bytes.

ghost use Rattle.std.specs.Prelude.{◌≡◌, [], ◌∷◌, ◌++◌, List};
ghost use base.Fml.{ftrue};
ghost use Rattle.outside.specs.Calls.{FileCall};
ghost use Rattle.outside.specs.Codes.{coded_calls};

use std::marker::Model;

#[derive(Drop)]
pub(crate) struct Calls {
    ghost all: { List FileCall } by { coded_calls },
}

impl Model for Calls {
    ghost also_owns = { λ _. ftrue };
}

// A call of a name, and whether it failed.
#[derive(Clone, Copy, Drop)]
pub(crate) enum NewCall<'a> {
    Fetch(&'a str, bool),
    Has(&'a str, bool),
    Store(&'a str, bool),
}

impl Calls {
    ghost use Rattle.outside.specs.NewCall.{call_of};

    pub(crate) fn new() -> Calls
        ensures { result.all ≡ [] }
    {
        Calls {}
    }

    pub(crate) fn with(&self, _call: &NewCall<'_>) -> Calls
        ensures { result.all ≡ self.now.all ++ call_of _call.now ∷ [] }
    {
        Calls {}
    }
}
