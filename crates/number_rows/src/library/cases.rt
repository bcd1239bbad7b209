//! Each function on its cases.

ghost use Rattle.std.specs.Prelude.{◌≡◌, ◌≤◌, [], sum_by};
ghost use Rattle.ctl_stdlib.specs.Rows.{row};
ghost use Rattle.ctl_stdlib.specs.Shapes.{open_sizes, table_words, input_words, filled_words};

use super::tables::{
    ACOS, ADD_F3_F3, ADD_F33_F33, ADD_F44_F44, ASIN, ATAN, ATAN2, CONSTANTS, COS, CROSS_F3_F3,
    Case, DOT_F3_F3, EXP, EXP_H, FABS, FLOOR, FMOD, HYPOT, INVERT_F33, INVERT_F44, LATTICE,
    LENGTH_F3, LOG, LOG_H, LOG10, LOG10_H, MULT_F_F3, MULT_F_F33, MULT_F_F44, MULT_F3_F33,
    MULT_F3_F44, MULT_F33_F33, MULT_F44_F44, PAIRED, POW, POW_H, POW10, POW10_H, RGB_TO_XYZ, SIN,
    SPREAD, SQRT, SUBTRACT_F3_F3, TAN, TRANSPOSE_F33, TRANSPOSE_F44, XYZ_TO_RGB,
};
use ctl_stdlib::{LibraryId, call, find, find_constant, params, result};
use fix_num::{Fix, saturated};
use std::process::Abort;

// The numbers of up to N raws, and 1.0 behind them.
fn numbers<const N: usize>(raws: &[i64]) -> [Fix; N] {
    let mut words = [Fix::ONE; N];
    for (word, raw) in words.iter_mut().zip(raws) {
        *word = saturated(*raw as i128);
    }
    words
}

fn are(words: &[Fix], raws: &[i64]) -> bool {
    words.len() == raws.len() && words.iter().zip(raws).all(|(word, raw)| word.raw() == *raw)
}

// Fails at the first case that does not hold of a function without a table, with so many words given and filled.
fn check(rt: &impl Abort, id: LibraryId, given: usize, filled: usize, cases: &[Case])
    requires closed { sum_by (λ p. open_sizes p.shape) (row id).params ≡ 0 }
    requires table { sum_by (table_words []) (row id).params ≡ 0 }
    requires given { given ≡ sum_by input_words (row id).params }
    requires filled { filled ≡ filled_words (row id) }
    requires few { (given ≤ 32) × (filled ≤ 16) }
{
    for (k, (args, wants)) in cases.iter().enumerate() {
        assert!(rt; args.len() == given, "the words of case {k} of {id:?}");
        let words: [Fix; 32] = numbers(args);
        let mut out = [Fix::ONE; 16];
        let goes_on = call(id, &[], &[], &words[..given], &mut out[..filled]);
        assert!(rt; goes_on && are(&out[..filled], wants), "case {k} of {id:?}");
    }
}

#[test]
fn floats(rt: HostRuntime) {
    check(&rt, LibraryId::Exp, 1, 1, &EXP);
    check(&rt, LibraryId::Log, 1, 1, &LOG);
    check(&rt, LibraryId::Log10, 1, 1, &LOG10);
    check(&rt, LibraryId::Pow10, 1, 1, &POW10);
    check(&rt, LibraryId::Sqrt, 1, 1, &SQRT);
    check(&rt, LibraryId::Fabs, 1, 1, &FABS);
    check(&rt, LibraryId::Floor, 1, 1, &FLOOR);
    check(&rt, LibraryId::Sin, 1, 1, &SIN);
    check(&rt, LibraryId::Cos, 1, 1, &COS);
    check(&rt, LibraryId::Tan, 1, 1, &TAN);
    check(&rt, LibraryId::Asin, 1, 1, &ASIN);
    check(&rt, LibraryId::Acos, 1, 1, &ACOS);
    check(&rt, LibraryId::Atan, 1, 1, &ATAN);
}

#[test]
fn pairs_and_halves(rt: HostRuntime) {
    check(&rt, LibraryId::Pow, 2, 1, &POW);
    check(&rt, LibraryId::Fmod, 2, 1, &FMOD);
    check(&rt, LibraryId::Hypot, 2, 1, &HYPOT);
    check(&rt, LibraryId::Atan2, 2, 1, &ATAN2);
    check(&rt, LibraryId::ExpH, 1, 1, &EXP_H);
    check(&rt, LibraryId::LogH, 1, 1, &LOG_H);
    check(&rt, LibraryId::Log10H, 1, 1, &LOG10_H);
    check(&rt, LibraryId::Pow10H, 1, 1, &POW10_H);
    check(&rt, LibraryId::PowH, 2, 1, &POW_H);
}

#[test]
fn vectors(rt: HostRuntime) {
    check(&rt, LibraryId::AddF3F3, 6, 3, &ADD_F3_F3);
    check(&rt, LibraryId::SubtractF3F3, 6, 3, &SUBTRACT_F3_F3);
    check(&rt, LibraryId::MultFF3, 4, 3, &MULT_F_F3);
    check(&rt, LibraryId::DotF3F3, 6, 1, &DOT_F3_F3);
    check(&rt, LibraryId::CrossF3F3, 6, 3, &CROSS_F3_F3);
    check(&rt, LibraryId::LengthF3, 3, 1, &LENGTH_F3);
    check(&rt, LibraryId::MultF3F33, 12, 3, &MULT_F3_F33);
    check(&rt, LibraryId::MultF3F44, 19, 3, &MULT_F3_F44);
}

#[test]
fn matrices(rt: HostRuntime) {
    check(&rt, LibraryId::MultF33F33, 18, 9, &MULT_F33_F33);
    check(&rt, LibraryId::MultF44F44, 32, 16, &MULT_F44_F44);
    check(&rt, LibraryId::MultFF33, 10, 9, &MULT_F_F33);
    check(&rt, LibraryId::MultFF44, 17, 16, &MULT_F_F44);
    check(&rt, LibraryId::AddF33F33, 18, 9, &ADD_F33_F33);
    check(&rt, LibraryId::AddF44F44, 32, 16, &ADD_F44_F44);
    check(&rt, LibraryId::TransposeF33, 9, 9, &TRANSPOSE_F33);
    check(&rt, LibraryId::TransposeF44, 16, 16, &TRANSPOSE_F44);
    check(&rt, LibraryId::InvertF33, 9, 9, &INVERT_F33);
    check(&rt, LibraryId::InvertF44, 16, 16, &INVERT_F44);
    check(&rt, LibraryId::RgbToXyz, 9, 16, &RGB_TO_XYZ);
    check(&rt, LibraryId::XyzToRgb, 9, 16, &XYZ_TO_RGB);
}

#[test]
fn colours_invert(rt: HostRuntime) {
    for (args, _) in &RGB_TO_XYZ {
        let words: [Fix; 9] = numbers(args);
        let mut there = [Fix::ONE; 16];
        let mut back = [Fix::ONE; 16];
        let mut inverse = [Fix::ONE; 16];
        call(LibraryId::RgbToXyz, &[], &[], &words, &mut there);
        call(LibraryId::InvertF44, &[], &[], &there, &mut inverse);
        call(LibraryId::XyzToRgb, &[], &[], &words, &mut back);
        assert!(rt; back == inverse);
    }
}

#[test]
fn spread(rt: HostRuntime) {
    for (k, (entries, place, line, curve)) in SPREAD.iter().enumerate() {
        let n = entries.len();
        assert!(rt; 1 <= n && n <= 8, "the table of case {k}");
        let table: [Fix; 8] = numbers(entries);
        let args: [Fix; 3] = numbers(place);
        let mut out = [Fix::ONE];
        call(
            LibraryId::Lookup1D,
            &[n as u32],
            &table[..n],
            &args,
            &mut out,
        );
        assert!(rt; are(&out, &[*line]), "the line of case {k}");
        call(
            LibraryId::LookupCubic1D,
            &[n as u32],
            &table[..n],
            &args,
            &mut out,
        );
        assert!(rt; are(&out, &[*curve]), "the curve of case {k}");
    }
}

#[test]
fn paired(rt: HostRuntime) {
    for (k, (entries, place, line, curve)) in PAIRED.iter().enumerate() {
        let n = entries.len() / 2;
        assert!(rt; 1 <= n && n <= 8, "the table of case {k}");
        let table: [Fix; 16] = numbers(entries);
        let args: [Fix; 1] = numbers(&[*place]);
        let mut out = [Fix::ONE];
        call(
            LibraryId::Interpolate1D,
            &[n as u32],
            &table[..2 * n],
            &args,
            &mut out,
        );
        assert!(rt; are(&out, &[*line]), "the line of case {k}");
        call(
            LibraryId::InterpolateCubic1D,
            &[n as u32],
            &table[..2 * n],
            &args,
            &mut out,
        );
        assert!(rt; are(&out, &[*curve]), "the curve of case {k}");
    }
}

#[test]
fn lattice(rt: HostRuntime) {
    for (k, (sizes, entries, points, wants)) in LATTICE.iter().enumerate() {
        assert!(rt;
            sizes.iter().all(|n| 1 <= *n && *n <= 3),
            "the sizes of case {k}"
        );
        let n = 3 * sizes[0] as usize * sizes[1] as usize * sizes[2] as usize;
        let table: [Fix; 81] = numbers(entries);
        let args: [Fix; 9] = numbers(points);
        let mut out = [Fix::ONE; 3];
        call(LibraryId::Lookup3DF3, sizes, &table[..n], &args, &mut out);
        assert!(rt; are(&out, wants), "case {k}");
        call(LibraryId::Lookup3DF, sizes, &table[..n], &args, &mut out);
        assert!(rt; are(&out, wants), "case {k} in three outputs");
    }
}

#[test]
fn assertion(rt: HostRuntime) {
    let zero = Fix::from_raw(0);
    let one = Fix::from_raw(1);
    assert!(rt; call(LibraryId::Assert, &[], &[], &[one], &mut []));
    assert!(rt; !call(LibraryId::Assert, &[], &[], &[zero], &mut []));
}

#[test]
fn names(rt: HostRuntime) {
    assert!(rt; matches!(find(b"exp"), Some(LibraryId::Exp)));
    assert!(rt; matches!(find(b"lookup3D_f"), Some(LibraryId::Lookup3DF)));
    assert!(rt; matches!(find(b"XYZtoRGB"), Some(LibraryId::XyzToRgb)));
    assert!(rt; find(b"Exp").is_none() && find(b"").is_none() && find(b"M_PI").is_none());
    assert!(rt; params(LibraryId::Lookup3DF).len() == 9 && result(LibraryId::Lookup3DF).is_none());
    for (k, (name, word)) in CONSTANTS.iter().enumerate() {
        assert!(rt;
            matches!(find_constant(name), Some(c) if c.word().raw() == *word),
            "constant {k}"
        );
    }
}
