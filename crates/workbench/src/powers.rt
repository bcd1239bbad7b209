//! Powers and logarithms of arguments that are spread over a range. No file is used.

use ctl_stdlib::{LibraryId, call};
use fix_elem::{exp2, log2, pow};
use fix_num::{FRACTION, Fix};

/// How many calls are made at a time.
const CALLS: u64 = 1000;

/// From one argument to the next: an odd number near 2^64 by the golden ratio.
const STEP: u64 = 0x9e37_79b9_7f4a_7c15;

/// The raw of 1.0.
const ONE: u64 = 1 << FRACTION;

/// Powers of numbers from 1/64 to 16, with exponents from 0.4 to 2.6.
pub(crate) fn powers(times: u32) -> u64 {
    let mut sum = 0u64;
    for n in 0..CALLS * u64::from(times) {
        let seed = n.wrapping_mul(STEP);
        sum = sum.wrapping_add(bits(pow(base(seed), exponent(seed))));
    }
    sum
}

/// The same powers, each by a call of the language's function.
pub(crate) fn called_powers(times: u32) -> u64 {
    let mut sum = 0u64;
    for n in 0..CALLS * u64::from(times) {
        let seed = n.wrapping_mul(STEP);
        let args = [base(seed), exponent(seed)];
        let mut out = [Fix::ONE];
        call(LibraryId::Pow, &[], &[], &args, &mut out);
        sum = sum.wrapping_add(bits(out[0]));
    }
    sum
}

/// Logarithms of numbers from 1/64 to 16.
pub(crate) fn logarithms(times: u32) -> u64 {
    let mut sum = 0u64;
    for n in 0..CALLS * u64::from(times) {
        let seed = n.wrapping_mul(STEP);
        sum = sum.wrapping_add(bits(log2(base(seed))));
    }
    sum
}

/// Powers of 2 with exponents from -6 to 4.
pub(crate) fn powers_of_two(times: u32) -> u64 {
    let mut sum = 0u64;
    for n in 0..CALLS * u64::from(times) {
        let seed = n.wrapping_mul(STEP);
        sum = sum.wrapping_add(bits(exp2(exponent_of_two(seed))));
    }
    sum
}

// A number from 1/64 to 16, in each of the ten octaves as often.
fn base(seed: u64) -> Fix {
    let top = (ONE + (seed >> 32)) << 3;
    Fix::from_raw((top >> (seed % 10)).cast_signed())
}

// A number from 0.4 to 2.6.
fn exponent(seed: u64) -> Fix {
    let part = seed & 0xffff_ffff;
    Fix::from_raw(((4 * ONE + 22 * part) / 10).cast_signed())
}

// A number from -6 to 4.
fn exponent_of_two(seed: u64) -> Fix {
    let above = 10 * (seed >> 32);
    Fix::from_raw(above.wrapping_sub(6 * ONE).cast_signed())
}

fn bits(x: Fix) -> u64 {
    x.raw().cast_unsigned()
}
