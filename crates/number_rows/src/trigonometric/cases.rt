//! The functions on the tables, and on worked values.

use super::tables::{ANGLES, POINTS, SHARES};
use fix_num::{Fix, saturated};
use fix_trig::{acos, asin, atan, atan2, cos, sin, tan};
use std::process::Abort;

// Raws y and x and the raw of the angle of (x, y), worked by hand: at -1, at 1 and 1, and at the origin.
static WORKED: [(i64, i64, i64); 3] = [
    (0, -1 << 32, 13493037705),
    (1 << 32, 1 << 32, 3373259426),
    (0, 0, 0),
];

fn number(raw: i64) -> Fix {
    saturated(raw as i128)
}

fn gives(rt: &impl Abort, function: &str, at: i64, got: Fix, want: i64) {
    assert_eq!(rt; got.raw(), want, "{function} at {at}");
}

#[test]
fn circle(rt: HostRuntime) {
    for (x, sine, cosine, tangent) in ANGLES.iter().copied() {
        gives(&rt, "sin", x, sin(number(x)), sine);
        gives(&rt, "cos", x, cos(number(x)), cosine);
        gives(&rt, "tan", x, tan(number(x)), tangent);
    }
}

#[test]
fn points(rt: HostRuntime) {
    for (y, x, angle) in WORKED.iter().chain(&POINTS).copied() {
        gives(&rt, "atan2", y, atan2(number(y), number(x)), angle);
    }
}

#[test]
fn arcs(rt: HostRuntime) {
    for (x, sine, cosine, tangent) in SHARES.iter().copied() {
        gives(&rt, "asin", x, asin(number(x)), sine);
        gives(&rt, "acos", x, acos(number(x)), cosine);
        gives(&rt, "atan", x, atan(number(x)), tangent);
    }
}
