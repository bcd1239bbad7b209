//! The constants of the library.

ghost use Rattle.std.specs.Prelude.{◌≡◌, MatchOption};
ghost use Rattle.ctl_stdlib.specs.Constants.{constant, NoConstant};

use ctl_base::ScalarKind;
use fix_num::{FRACTION, Fix};

/// A constant of the library.
#[derive(Clone, Copy, Debug, PartialEq, Eq)]
pub enum LibraryConstant {
    Pi,
    Euler,
    HalfMax,
    FloatMax,
    IntMax,
    IntMin,
    UnsignedMax,
}

/// The constant with this name, and None where there is none.
pub fn find_constant(name: &[u8]) -> Option<LibraryConstant>
    ensures { MatchOption result (NoConstant name.now) (λ c. (constant c).name ≡ name.now) }
{
    match name {
        b"M_PI" => Some(LibraryConstant::Pi),
        b"M_E" => Some(LibraryConstant::Euler),
        b"HALF_MAX" => Some(LibraryConstant::HalfMax),
        b"FLT_MAX" => Some(LibraryConstant::FloatMax),
        b"INT_MAX" => Some(LibraryConstant::IntMax),
        b"INT_MIN" => Some(LibraryConstant::IntMin),
        b"UINT_MAX" => Some(LibraryConstant::UnsignedMax),
        _ => None,
    }
}

// The constants of a circle and of growth in quintillionths.
const PI: u64 = 3_141_592_653_589_793_238;

const EULER: u64 = 2_718_281_828_459_045_235;

impl LibraryConstant {
    /// Its kind.
    pub fn kind(self) -> ScalarKind
        ensures { result ≡ (constant self).kind }
    {
        match self {
            LibraryConstant::Pi => ScalarKind::Float,
            LibraryConstant::Euler => ScalarKind::Float,
            LibraryConstant::HalfMax => ScalarKind::Half,
            LibraryConstant::FloatMax => ScalarKind::Float,
            LibraryConstant::IntMax => ScalarKind::Int,
            LibraryConstant::IntMin => ScalarKind::Int,
            LibraryConstant::UnsignedMax => ScalarKind::Unsigned,
        }
    }

    /// Its value as a word: the raw of a half or a float, and a whole number as it is.
    pub fn word(self) -> Fix
        ensures { result ≡ (constant self).word FRACTION }
    {
        match self {
            LibraryConstant::Pi => Fix::ONE.times(PI),
            LibraryConstant::Euler => Fix::ONE.times(EULER),
            LibraryConstant::HalfMax => Fix::from_raw(65_504 << FRACTION),
            LibraryConstant::FloatMax => Fix::from_raw(i64::MAX),
            LibraryConstant::IntMax => Fix::from_raw(2_147_483_647),
            LibraryConstant::IntMin => Fix::from_raw(-2_147_483_648),
            LibraryConstant::UnsignedMax => Fix::from_raw(4_294_967_295),
        }
    }
}
