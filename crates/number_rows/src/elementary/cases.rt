//! The functions on the tables, and on worked values.

use super::tables::{LOGARITHMS, PAIRS, POWERS};
use fix_elem::{exp, exp2, fmod, hypot, log, log2, log10, pow, pow10, sqrt};
use fix_num::{Fix, saturated};
use std::process::Abort;

// Raws x and y and the raw of x to the power of y, worked by hand: 0.5^2, 0^0, (-2)^3, (-2)^0.5 and 2^0.5.
static WORKED: [(i64, i64, i64); 5] = [
    (1 << 31, 2 << 32, 1 << 30),
    (0, 0, 1 << 32),
    (-2 << 32, 3 << 32, -8 << 32),
    (-2 << 32, 1 << 31, 0),
    (2 << 32, 1 << 31, 6074001000),
];

fn number(raw: i64) -> Fix {
    saturated(raw as i128)
}

fn gives(rt: &impl Abort, function: &str, at: i64, got: Fix, want: i64) {
    assert_eq!(rt; got.raw(), want, "{function} at {at}");
}

#[test]
fn powers(rt: HostRuntime) {
    for (x, of_2, of_e, of_10) in POWERS.iter().copied() {
        gives(&rt, "exp2", x, exp2(number(x)), of_2);
        gives(&rt, "exp", x, exp(number(x)), of_e);
        gives(&rt, "pow10", x, pow10(number(x)), of_10);
    }
    for (x, y, power) in WORKED.iter().copied() {
        gives(&rt, "pow", x, pow(number(x), number(y)), power);
    }
}

#[test]
fn logarithms(rt: HostRuntime) {
    for (x, to_2, to_e, to_10, root) in LOGARITHMS.iter().copied() {
        gives(&rt, "log2", x, log2(number(x)), to_2);
        gives(&rt, "log", x, log(number(x)), to_e);
        gives(&rt, "log10", x, log10(number(x)), to_10);
        gives(&rt, "sqrt", x, sqrt(number(x)), root);
    }
}

#[test]
fn pairs(rt: HostRuntime) {
    for (x, y, power, length, rest) in PAIRS.iter().copied() {
        gives(&rt, "pow", x, pow(number(x), number(y)), power);
        gives(&rt, "hypot", x, hypot(number(x), number(y)), length);
        gives(&rt, "fmod", x, fmod(number(x), number(y)), rest);
    }
}
