//! The functions on the tables.

ghost use Rattle.std.specs.Prelude.{◌<◌, ◌≤◌, ◌%◌, ◌≡◌, length};

use super::tables::{
    BOX, BOX_AT, BOX_HIGH, BOX_LOW, COLOURS, FIVE, FOUR, FOUR_EXCHANGED, FOURS, MIXED, MIXED_AT,
    RISING, RISING_AT, ROW, ROW_THRICE, ROW_TWICE, SINGLE, SPREAD, SPREAD_SINGLE, SPREAD_TWO,
    THREE, THREE_EXCHANGED, THREES, TO_XYZ, TWO,
};
use super::{fills, gives, number, numbers};
use ctl_base::limits::SCALARS;
use fix_num::Fix;
use std::process::Abort;
use table_lookup::matrix::{
    add_entries, det_f33, det_f44, invert_f33, invert_f44, mult_f3_f33, mult_f3_f44, mult_f33_f33,
    mult_f44_f44, scale_entries, transpose_f33, transpose_f44,
};
use table_lookup::{interp_cubic1, interp1, lookup_cubic1, lookup1, lookup3, rgb_to_xyz};

fn looks_up(rt: &impl Abort, table: &[Fix], case: (i64, i64, i64, i64, i64))
    requires some { 0 < length table.now }
    requires few { length table.now ≤ SCALARS }
{
    let (lo, hi, p, line, curve) = case;
    let (lo, hi) = (number(lo), number(hi));
    gives(rt, "lookup1", p, lookup1(table, lo, hi, number(p)), line);
    let got = lookup_cubic1(table, lo, hi, number(p));
    gives(rt, "lookup_cubic1", p, got, curve);
}

#[test]
fn spread(rt: HostRuntime) {
    for case in SPREAD.iter().copied() {
        looks_up(&rt, &numbers(&FIVE), case);
    }
    for case in SPREAD_TWO.iter().copied() {
        looks_up(&rt, &numbers(&TWO), case);
    }
    for case in SPREAD_SINGLE.iter().copied() {
        looks_up(&rt, &numbers(&SINGLE), case);
    }
}

fn interpolates(rt: &impl Abort, table: &[Fix], case: (i64, i64, i64))
    requires some { 0 < length table.now }
    requires few { length table.now ≤ SCALARS }
    requires even { length table.now % 2 ≡ 0 }
{
    let (p, line, curve) = case;
    gives(rt, "interp1", p, interp1(table, number(p)), line);
    let got = interp_cubic1(table, number(p));
    gives(rt, "interp_cubic1", p, got, curve);
}

#[test]
fn pairs(rt: HostRuntime) {
    for case in RISING_AT.iter().copied() {
        interpolates(&rt, &numbers(&RISING), case);
    }
    for case in MIXED_AT.iter().copied() {
        interpolates(&rt, &numbers(&MIXED), case);
    }
}

#[test]
fn corners(rt: HostRuntime) {
    let t = numbers(&BOX);
    let (lo, hi) = (numbers(&BOX_LOW), numbers(&BOX_HIGH));
    for (p, want) in BOX_AT.iter().copied() {
        let mut out = [number(0); 3];
        lookup3(&t, 2, 3, 2, &lo, &hi, &numbers(&p), &mut out);
        fills(&rt, "lookup3", &out, &want);
    }
}

#[test]
fn threes(rt: HostRuntime) {
    for (m, det, inverse, square, row) in THREES.iter().copied() {
        let m = numbers(&m);
        let mut out = [number(0); 9];
        gives(&rt, "det_f33", 0, det_f33(&m), det);
        invert_f33(&m, &mut out);
        fills(&rt, "invert_f33", &out, &inverse);
        mult_f33_f33(&m, &m, &mut out);
        fills(&rt, "mult_f33_f33", &out, &square);
        let mut point = [number(0); 3];
        mult_f3_f33(&numbers(&ROW), &m, &mut point);
        fills(&rt, "mult_f3_f33", &point, &row);
    }
}

#[test]
fn fours(rt: HostRuntime) {
    for (m, det, inverse, square, row) in FOURS.iter().copied() {
        let m = numbers(&m);
        let mut out = [number(0); 16];
        gives(&rt, "det_f44", 0, det_f44(&m), det);
        invert_f44(&m, &mut out);
        fills(&rt, "invert_f44", &out, &inverse);
        mult_f44_f44(&m, &m, &mut out);
        fills(&rt, "mult_f44_f44", &out, &square);
        let mut point = [number(0); 3];
        mult_f3_f44(&numbers(&ROW), &m, &mut point);
        fills(&rt, "mult_f3_f44", &point, &row);
    }
}

#[test]
fn entries(rt: HostRuntime) {
    let row = numbers(&ROW);
    let mut out = [number(0); 3];
    add_entries(&row, &row, &mut out);
    fills(&rt, "add_entries", &out, &ROW_TWICE);
    scale_entries(number(3 << 32), &row, &mut out);
    fills(&rt, "scale_entries", &out, &ROW_THRICE);
    let mut three = [number(0); 9];
    transpose_f33(&numbers(&THREE), &mut three);
    fills(&rt, "transpose_f33", &three, &THREE_EXCHANGED);
    let mut four = [number(0); 16];
    transpose_f44(&numbers(&FOUR), &mut four);
    fills(&rt, "transpose_f44", &four, &FOUR_EXCHANGED);
}

#[test]
fn colours(rt: HostRuntime) {
    for (luminance, want) in TO_XYZ.iter().copied() {
        let mut out = [number(0); 16];
        rgb_to_xyz(&numbers(&COLOURS), number(luminance), &mut out);
        fills(&rt, "rgb_to_xyz", &out, &want);
    }
}
