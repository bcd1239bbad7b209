//! The functions by their names.

ghost use Rattle.std.specs.Prelude.{◌≡◌, MatchOption};
ghost use Rattle.ctl_stdlib.specs.Rows.{row, NoRow};
ghost use Rattle.ctl_stdlib.specs.Means.{numbers, vectors, IsNoneOf, NoneNamed};

use crate::row::LibraryId;

// All functions.
const ALL: [LibraryId; 49] = [
    LibraryId::Exp,
    LibraryId::Log,
    LibraryId::Log10,
    LibraryId::Pow10,
    LibraryId::Sqrt,
    LibraryId::Fabs,
    LibraryId::Floor,
    LibraryId::Sin,
    LibraryId::Cos,
    LibraryId::Tan,
    LibraryId::Asin,
    LibraryId::Acos,
    LibraryId::Atan,
    LibraryId::Pow,
    LibraryId::Fmod,
    LibraryId::Hypot,
    LibraryId::Atan2,
    LibraryId::ExpH,
    LibraryId::LogH,
    LibraryId::Log10H,
    LibraryId::Pow10H,
    LibraryId::PowH,
    LibraryId::AddF3F3,
    LibraryId::SubtractF3F3,
    LibraryId::MultFF3,
    LibraryId::DotF3F3,
    LibraryId::CrossF3F3,
    LibraryId::LengthF3,
    LibraryId::MultF3F33,
    LibraryId::MultF3F44,
    LibraryId::MultF33F33,
    LibraryId::MultF44F44,
    LibraryId::MultFF33,
    LibraryId::MultFF44,
    LibraryId::AddF33F33,
    LibraryId::AddF44F44,
    LibraryId::TransposeF33,
    LibraryId::TransposeF44,
    LibraryId::InvertF33,
    LibraryId::InvertF44,
    LibraryId::Lookup1D,
    LibraryId::LookupCubic1D,
    LibraryId::Interpolate1D,
    LibraryId::InterpolateCubic1D,
    LibraryId::Lookup3DF3,
    LibraryId::Lookup3DF,
    LibraryId::RgbToXyz,
    LibraryId::XyzToRgb,
    LibraryId::Assert,
];

/// The function with this name, and None where there is none.
pub fn find(name: &[u8]) -> Option<LibraryId>
    ensures { MatchOption result (NoRow name.now) (λ id. (row id).name ≡ name.now) }
{
    match first_named(&ALL, name) {
        Some(id) => Some(id),
        None => None,
    }
}

// The first of these functions that has the name.
fn first_named(functions: &[LibraryId], name: &[u8]) -> Option<LibraryId>
    ensures { MatchOption result (NoneNamed functions.now name.now) (λ id. (row id).name ≡ name.now) }
{
    'each: for i in 0..functions.len() {
        let id = functions[i];
        if name_of(id) == name {
            return Some(id);
        }
    }
    None
}

/// The name of a function.
pub fn name_of(id: LibraryId) -> &'static [u8]
    ensures { result.now ≡ (row id).name }
{
    match id {
        LibraryId::Exp => b"exp",
        LibraryId::Log => b"log",
        LibraryId::Log10 => b"log10",
        LibraryId::Pow10 => b"pow10",
        LibraryId::Sqrt => b"sqrt",
        LibraryId::Fabs => b"fabs",
        LibraryId::Floor => b"floor",
        LibraryId::Sin => b"sin",
        LibraryId::Cos => b"cos",
        LibraryId::Tan => b"tan",
        LibraryId::Asin => b"asin",
        LibraryId::Acos => b"acos",
        LibraryId::Atan => b"atan",
        LibraryId::Pow => b"pow",
        LibraryId::Fmod => b"fmod",
        LibraryId::Hypot => b"hypot",
        LibraryId::Atan2 => b"atan2",
        LibraryId::ExpH => b"exp_h",
        LibraryId::LogH => b"log_h",
        LibraryId::Log10H => b"log10_h",
        LibraryId::Pow10H => b"pow10_h",
        LibraryId::PowH => b"pow_h",
        _ => name_of_other(id),
    }
}

// The name of a function that is none of those of numbers.
fn name_of_other(id: LibraryId) -> &'static [u8]
    requires { IsNoneOf numbers id }
    ensures { result.now ≡ (row id).name }
{
    match id {
        LibraryId::AddF3F3 => b"add_f3_f3",
        LibraryId::SubtractF3F3 => b"subtract_f3_f3",
        LibraryId::MultFF3 => b"mult_f_f3",
        LibraryId::DotF3F3 => b"dot_f3_f3",
        LibraryId::CrossF3F3 => b"cross_f3_f3",
        LibraryId::LengthF3 => b"length_f3",
        LibraryId::MultF3F33 => b"mult_f3_f33",
        LibraryId::MultF3F44 => b"mult_f3_f44",
        LibraryId::MultF33F33 => b"mult_f33_f33",
        LibraryId::MultF44F44 => b"mult_f44_f44",
        LibraryId::MultFF33 => b"mult_f_f33",
        LibraryId::MultFF44 => b"mult_f_f44",
        LibraryId::AddF33F33 => b"add_f33_f33",
        LibraryId::AddF44F44 => b"add_f44_f44",
        LibraryId::TransposeF33 => b"transpose_f33",
        LibraryId::TransposeF44 => b"transpose_f44",
        LibraryId::InvertF33 => b"invert_f33",
        LibraryId::InvertF44 => b"invert_f44",
        _ => name_of_table(id),
    }
}

// The name of a look-up, of a matrix of colours, or of the assertion.
fn name_of_table(id: LibraryId) -> &'static [u8]
    requires no_number { IsNoneOf numbers id }
    requires no_vector { IsNoneOf vectors id }
    ensures { result.now ≡ (row id).name }
{
    match id {
        LibraryId::Lookup1D => b"lookup1D",
        LibraryId::LookupCubic1D => b"lookupCubic1D",
        LibraryId::Interpolate1D => b"interpolate1D",
        LibraryId::InterpolateCubic1D => b"interpolateCubic1D",
        LibraryId::Lookup3DF3 => b"lookup3D_f3",
        LibraryId::Lookup3DF => b"lookup3D_f",
        LibraryId::RgbToXyz => b"RGBtoXYZ",
        LibraryId::XyzToRgb => b"XYZtoRGB",
        _ => b"assert",
    }
}
