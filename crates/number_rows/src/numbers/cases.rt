//! The functions on the tables.

use super::tables::{
    CODES, CODES_OUT, CONVERSIONS, DECIMALS, FAULTY, FROM_INTS, FROM_UNSIGNED, HALVES, INT_CASES,
    ISQRTS, LONG, OPERATIONS, PRODUCTS, QUOTIENTS, ROOTS, ROUNDED, SHIFTED, SUMS, TIMES,
    UNSIGNED_CASES, WORKED_HALVES, WORKED_INTS, WORKED_RAWS,
};
use fix_num::{
    Fix, LOG2_TEN, LiteralFault, as_int, as_unsigned, isqrt, of_bool, read_decimal, rnd, rnd_shift,
    saturated, truth, whole,
};
use std::process::Abort;

fn number(raw: i64) -> Fix {
    saturated(raw as i128)
}

// Fails at the first row that does not hold.
fn check<T, F: Fn(&T) -> bool>(rt: &impl Abort, rows: &[T], holds: F)
    requires { F.IsAlwaysCallable holds }
{
    for (k, row) in rows.iter().enumerate() {
        assert!(rt; holds(row), "row {k}");
    }
}

#[test]
fn rounding(rt: HostRuntime) {
    check(
        &rt,
        &ROUNDED,
        |(n, d, want)| rnd(*n as i128, (*d).max(1) as i128) == *want,
    );
    check(
        &rt,
        &SHIFTED,
        |(n, bits, want)| rnd_shift(*n as i128, (*bits).min(62)) == *want,
    );
    check(&rt, &ISQRTS, |(n, want)| isqrt(*n) == *want);
}

#[test]
fn arithmetic(rt: HostRuntime) {
    check(&rt, &SUMS, |(a, b, sum, difference)| {
        number(*a).add(number(*b)).raw() == *sum && number(*a).sub(number(*b)).raw() == *difference
    });
    check(
        &rt,
        &PRODUCTS,
        |(a, b, want)| number(*a).mul(number(*b)).raw() == *want,
    );
    check(
        &rt,
        &QUOTIENTS,
        |(a, b, want)| number(*a).div(number(*b)).raw() == *want,
    );
    check(
        &rt,
        &TIMES,
        |(a, n, want)| number(*a).times((*n).min(LOG2_TEN)).raw() == *want,
    );
    check(&rt, &ROOTS, |(a, want)| number(*a).sqrt().raw() == *want);
}

#[test]
fn conversions(rt: HostRuntime) {
    check(
        &rt,
        &HALVES,
        |(a, want)| number(*a).to_half().raw() == *want,
    );
    check(&rt, &CONVERSIONS, |(a, size, floor, int, unsigned)| {
        let x = number(*a);
        x.abs().raw() == *size
            && x.floor().raw() == *floor
            && x.to_i32() == *int
            && x.to_u32() == *unsigned
    });
    check(&rt, &FROM_INTS, |(n, raw, half, unsigned)| {
        Fix::from_i32(*n).raw() == *raw
            && Fix::half_from_i32(*n).raw() == *half
            && as_unsigned(*n) == *unsigned
    });
    check(&rt, &FROM_UNSIGNED, |(n, raw, half, int)| {
        Fix::from_u32(*n).raw() == *raw
            && Fix::half_from_u32(*n).raw() == *half
            && as_int(*n) == *int
    });
    assert!(rt; Fix::from_bool(true) == Fix::ONE && Fix::from_bool(false).raw() == 0);
    assert!(rt; of_bool(true) == 1 && of_bool(false) == 0);
    assert!(rt; truth(-1) && !truth(0) && Fix::ONE.neg().truth() && !Fix::from_raw(0).truth());
}

#[test]
fn codes(rt: HostRuntime) {
    check(&rt, &CODES, |(bits, code, want)| {
        let x = match *bits {
            8 if *code < 256 => Fix::code_in(*code, 8),
            10 if *code < 1024 => Fix::code_in(*code, 10),
            _ => Fix::code_in(*code, 16),
        };
        x.raw() == *want
    });
    check(
        &rt,
        &CODES_OUT,
        |(bits, raw, want)| number(*raw).code_out((*bits).clamp(8, 16)) == *want,
    );
}

#[test]
fn integers(rt: HostRuntime) {
    check(
        &rt,
        &WORKED_INTS,
        |(op, a, b, want)| whole(*op, true, *a as i64, *b as i64) == *want as i64,
    );
    check(&rt, &INT_CASES, |(a, b, wants)| {
        OPERATIONS.iter().zip(*wants).all(|(op, want)| whole(*op, true, *a as i64, *b as i64)
            == *want as i64)
    });
    check(&rt, &UNSIGNED_CASES, |(a, b, wants)| {
        OPERATIONS.iter().zip(*wants).all(|(op, want)| whole(*op, false, *a as i64, *b as i64)
            == *want as i64)
    });
}

// Whether a text spells a number of this raw.
fn spells(text: &[u8], raw: i64) -> bool {
    matches!(read_decimal(text), Ok(x) if x.raw() == raw)
}

#[test]
fn decimals(rt: HostRuntime) {
    check(&rt, &WORKED_RAWS, |(text, raw)| spells(text, *raw));
    check(&rt, &DECIMALS, |(text, raw)| spells(text, *raw));
    check(
        &rt,
        &FAULTY,
        |text| matches!(read_decimal(text), Err(LiteralFault::NotANumber)),
    );
    check(
        &rt,
        &LONG,
        |text| matches!(read_decimal(text), Err(LiteralFault::TooManyDigits)),
    );
    check(
        &rt,
        &WORKED_HALVES,
        |(text, raw)| matches!(read_decimal(text), Ok(x) if x.to_half().raw() == *raw),
    );
}
