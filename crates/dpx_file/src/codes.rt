//! Codes that contracts see as a list.

ghost use Rattle.std.specs.Prelude.{◌≡◌};

use std::marker::Model;

/// Codes, which contracts see as a list.
#[derive(Debug, Drop)]
pub struct CodeList {
    codes: Vec<u16>,
}

impl Model for CodeList {
    ghost use Rattle.std.specs.Prelude.{List, ℕ};

    ghost Value = { List ℕ };

    ghost view = { λ c. c.codes.items };
}

impl CodeList {
    /// The codes of a vector, which is taken over and not copied.
    pub fn from_vec(codes: Vec<u16>) -> CodeList
        ensures { result ≡ codes.items }
    {
        CodeList { codes }
    }

    pub fn as_slice(&self) -> &[u16]
        ensures { result.now ≡ self.now }
    {
        self.codes.as_slice()
    }
}
