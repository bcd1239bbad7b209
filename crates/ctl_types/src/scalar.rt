//! Scalars.

ghost use Rattle.std.specs.Prelude.{◌≡◌, true};
ghost use Rattle.ctl_types.specs.Scalars.{kind_of, word_of, scalar, in_range};
ghost use Rattle.fix_num.specs.declared.TheConstants.{FRACTION};

use ctl_base::ScalarKind;
use fix_num::Fix;

/// A scalar by its kind. A half is kept as the number that it is.
#[derive(Clone, Copy, Debug, PartialEq, Eq)]
pub enum Scalar {
    Bool(bool),
    Int(i32),
    Unsigned(u32),
    Half(Fix),
    Float(Fix),
}

impl Scalar {
    /// Its kind.
    pub fn kind(self) -> ScalarKind
        ensures { result ≡ kind_of self }
    {
        match self {
            Scalar::Bool(_) => ScalarKind::Bool,
            Scalar::Int(_) => ScalarKind::Int,
            Scalar::Unsigned(_) => ScalarKind::Unsigned,
            Scalar::Half(_) => ScalarKind::Half,
            Scalar::Float(_) => ScalarKind::Float,
        }
    }

    /// Its word: 0 or 1 for a bool, a whole number as it is, and the raw of a half or a float.
    pub fn word(self) -> Fix
        ensures { result ≡ word_of self }
    {
        match self {
            Scalar::Bool(b) => Fix::from_raw(fix_num::of_bool(b)),
            Scalar::Int(n) => Fix::from_raw(n as i64),
            Scalar::Unsigned(n) => Fix::from_raw(n as i64),
            Scalar::Half(x) => x,
            Scalar::Float(x) => x,
        }
    }

    /// The scalar of a kind with a word that is in the range of the kind.
    pub fn from_word(kind: ScalarKind, word: Fix) -> Scalar
        requires { in_range FRACTION kind word ≡ true }
        ensures { result ≡ scalar kind word }
    {
        match kind {
            ScalarKind::Bool => Scalar::Bool(word.truth()),
            ScalarKind::Int => Scalar::Int(word.raw() as i32),
            ScalarKind::Unsigned => Scalar::Unsigned(word.raw() as u32),
            ScalarKind::Half => Scalar::Half(word),
            ScalarKind::Float => Scalar::Float(word),
        }
    }
}
