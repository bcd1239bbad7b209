//! Values worked by hand, in eighths.

use super::{fills, gives, number, numbers};
use fix_num::Fix;
use table_lookup::matrix::mult_f3_f33;
use table_lookup::{interp1, lookup_cubic1, lookup1, lookup3};

const EIGHTH: i64 = 1 << 29;

const ONE: i64 = 1 << 32;

fn eighths(n: i32) -> Fix {
    number(n as i64 * EIGHTH)
}

#[test]
fn lines(rt: HostRuntime) {
    let t = numbers(&[0, ONE, 4 * ONE]);
    let (zero, two) = (eighths(0), eighths(16));
    let p = eighths(12);
    gives(&rt, "lookup1", 12, lookup1(&t, zero, two, p), 20 * EIGHTH);
    gives(&rt, "lookup1", -8, lookup1(&t, zero, two, eighths(-8)), 0);
    gives(
        &rt,
        "lookup1",
        72,
        lookup1(&t, zero, two, eighths(72)),
        4 * ONE,
    );
    gives(&rt, "lookup1", 12, lookup1(&t, two, two, p), 0);
    let curve = lookup_cubic1(&t, zero, two, p);
    gives(&rt, "lookup_cubic1", 12, curve, 19 * EIGHTH);
    let pairs = numbers(&[0, 0, ONE, 10 * ONE, 2 * ONE, 0]);
    gives(
        &rt,
        "interp1",
        10,
        interp1(&pairs, eighths(10)),
        60 * EIGHTH,
    );
}

#[test]
fn corners(rt: HostRuntime) {
    let t = numbers(&[
        0, 0, 0, 0, 0, ONE, 0, ONE, 0, 0, ONE, ONE, ONE, 0, 0, ONE, 0, ONE, ONE, ONE, 0, ONE, ONE,
        ONE,
    ]);
    let (low, high) = (numbers(&[0, 0, 0]), numbers(&[ONE, ONE, ONE]));
    let at = [2 * EIGHTH, 4 * EIGHTH, 6 * EIGHTH];
    let mut out = [number(0); 3];
    lookup3(&t, 2, 2, 2, &low, &high, &numbers(&at), &mut out);
    fills(&rt, "lookup3", &out, &at);
    let m = numbers(&[ONE, 0, 0, 0, 2 * ONE, 0, ONE, 0, ONE]);
    mult_f3_f33(&numbers(&[ONE, 2 * ONE, 3 * ONE]), &m, &mut out);
    fills(&rt, "mult_f3_f33", &out, &[4 * ONE, 4 * ONE, 3 * ONE]);
}
