//! The call of a function over flat words.

ghost use Rattle.std.specs.Prelude.{◌≡◌, ℤ, [], ◌∷◌, length, sum_by, true, false, MatchOption};
ghost use Rattle.ctl_stdlib.specs.Rows.{row};
ghost use Rattle.ctl_stdlib.specs.Shapes.{Fits, input_words, filled_words};
ghost use Rattle.ctl_stdlib.specs.Means.{numbers, vectors, IsNoneOf, Gives, GivesOne};

use crate::row::LibraryId;
use crate::{tables, vectors};
use fix_elem::{exp, fmod, hypot, log, log10, pow, pow10, sqrt};
use fix_num::{FRACTION, Fix};
use fix_trig::{acos, asin, atan, atan2, cos, sin, tan};

/// Calls a function. `sizes` has the open sizes of its table, `table` the words of the table, `args`
/// those of the other inputs in their order, and `out` is filled with those of the result and of the
/// outputs. The words of arrays stand one after the other. The answer is false exactly where an
/// assertion is false.
pub fn call(id: LibraryId, sizes: &[u32], table: &[Fix], args: &[Fix], out: &mut [Fix]) -> bool
    requires { Fits (row id) sizes.now table.now args.now (length out.old) }
    ensures value { out.new ≡ (row id).value FRACTION sizes.now table.now args.now }
    ensures answer { result ≡ (row id).answer args.now }
{
    match number(id, args) {
        Some(x) => one(x, out),
        None => beyond_numbers(id, sizes, table, args, out),
    }
}

// A function that is none of those of numbers.
fn beyond_numbers(
    id: LibraryId,
    sizes: &[u32],
    table: &[Fix],
    args: &[Fix],
    out: &mut [Fix],
) -> bool
    requires fits { Fits (row id) sizes.now table.now args.now (length out.old) }
    requires no_number { IsNoneOf numbers id }
    ensures value { out.new ≡ (row id).value FRACTION sizes.now table.now args.now }
    ensures answer { result ≡ (row id).answer args.now }
{
    if vector(id, args, out) {
        true
    } else {
        looked_up(id, sizes, table, args, out)
    }
}

// Fills one word.
fn one(x: Fix, out: &mut [Fix]) -> bool
    requires { length out.old ≡ 1 }
    ensures filled { out.new ≡ x ∷ [] }
    ensures done { result ≡ true }
{
    out.copy_from_slice(&[x]);
    true
}

// The functions that give a number for one or two numbers.
fn number(id: LibraryId, args: &[Fix]) -> Option<Fix>
    requires given { length args.now ≡ sum_by input_words (row id).params }
    ensures { MatchOption result (IsNoneOf numbers id) (λ x. GivesOne id args.now x) }
{
    let x = args[0];
    let y = args[args.len() - 1];
    match id {
        LibraryId::Exp => Some(exp(x)),
        LibraryId::Log => Some(log(x)),
        LibraryId::Log10 => Some(log10(x)),
        LibraryId::Pow10 => Some(pow10(x)),
        LibraryId::Sqrt => Some(sqrt(x)),
        LibraryId::Fabs => Some(x.abs()),
        LibraryId::Floor => Some(x.floor()),
        LibraryId::Sin => Some(sin(x)),
        LibraryId::Cos => Some(cos(x)),
        LibraryId::Tan => Some(tan(x)),
        LibraryId::Asin => Some(asin(x)),
        LibraryId::Acos => Some(acos(x)),
        LibraryId::Atan => Some(atan(x)),
        LibraryId::Pow => Some(pow(x, y)),
        LibraryId::Fmod => Some(fmod(x, y)),
        LibraryId::Hypot => Some(hypot(x, y)),
        LibraryId::Atan2 => Some(atan2(x, y)),
        LibraryId::ExpH => Some(exp(x).to_half()),
        LibraryId::LogH => Some(log(x).to_half()),
        LibraryId::Log10H => Some(log10(x).to_half()),
        LibraryId::Pow10H => Some(pow10(x).to_half()),
        LibraryId::PowH => Some(pow(x, y).to_half()),
        _ => None,
    }
}

// The functions of vectors and matrices, or false.
fn vector(id: LibraryId, args: &[Fix], out: &mut [Fix]) -> bool
    requires given { length args.now ≡ sum_by input_words (row id).params }
    requires room { length out.old ≡ filled_words (row id) }
    ensures done { result ≡ true → Gives id args.now out.new }
    ensures none { result ≡ false → IsNoneOf vectors id × (out.new ≡ out.old) }
{
    match id {
        LibraryId::AddF3F3 => vectors::sum(3, args, out),
        LibraryId::SubtractF3F3 => vectors::difference(args, out),
        LibraryId::MultFF3 => vectors::product(3, args, out),
        LibraryId::DotF3F3 => vectors::dot(args, out),
        LibraryId::CrossF3F3 => vectors::cross(args, out),
        LibraryId::LengthF3 => vectors::size(args, out),
        LibraryId::MultF3F33 => vectors::row_by_33(args, out),
        LibraryId::MultF3F44 => vectors::row_by_44(args, out),
        LibraryId::MultF33F33 => vectors::product_33(args, out),
        LibraryId::MultF44F44 => vectors::product_44(args, out),
        LibraryId::MultFF33 => vectors::product(9, args, out),
        LibraryId::MultFF44 => vectors::product(16, args, out),
        LibraryId::AddF33F33 => vectors::sum(9, args, out),
        LibraryId::AddF44F44 => vectors::sum(16, args, out),
        LibraryId::TransposeF33 => vectors::transpose_33(args, out),
        LibraryId::TransposeF44 => vectors::transpose_44(args, out),
        LibraryId::InvertF33 => vectors::inverse_33(args, out),
        LibraryId::InvertF44 => vectors::inverse_44(args, out),
        _ => false,
    }
}

// The look-ups, the matrices of colours, and the assertion.
fn looked_up(id: LibraryId, sizes: &[u32], table: &[Fix], args: &[Fix], out: &mut [Fix]) -> bool
    requires fits { Fits (row id) sizes.now table.now args.now (length out.old) }
    requires no_number { IsNoneOf numbers id }
    requires no_vector { IsNoneOf vectors id }
    ensures value { out.new ≡ (row id).value FRACTION sizes.now table.now args.now }
    ensures answer { result ≡ (row id).answer args.now }
{
    match id {
        LibraryId::Lookup1D => one(tables::line(table, args), out),
        LibraryId::LookupCubic1D => one(tables::curve(table, args), out),
        LibraryId::Interpolate1D => one(tables::pair_line(table, args), out),
        LibraryId::InterpolateCubic1D => one(tables::pair_curve(table, args), out),
        LibraryId::Lookup3DF3 => tables::lattice(sizes, table, args, out),
        LibraryId::Lookup3DF => tables::lattice(sizes, table, args, out),
        LibraryId::RgbToXyz => vectors::to_xyz(args, out),
        LibraryId::XyzToRgb => vectors::to_rgb(args, out),
        _ => args[0].truth(),
    }
}
