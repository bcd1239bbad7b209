//! The three programs of the chain that is built into the command, written out by hand: what they cost a pixel where no
//! interpreter stands between. No file is used.

use ctl_stdlib::{LibraryId, call};
use fix_elem::{pow, pow10};
use fix_num::Fix;

/// How many pixels are done at a time.
const PIXELS: u64 = 1000;

/// From one pixel's codes to the next: an odd number near 2^64 by the golden ratio.
const STEP: u64 = 0x9e37_79b9_7f4a_7c15;

/// The raws of 0.1, 1.0, 2.0 and 2.2.
const TENTH: i64 = 429_496_730;

const ONE: i64 = 1 << 32;

const TWO: i64 = 1 << 33;

const GAMMA: i64 = 9_448_928_051;

/// The raws of a matrix of 3 by 3, of eighths.
static MATRIX: [i64; 9] = [
    3 << 30,
    1 << 29,
    1 << 29,
    1 << 29,
    3 << 30,
    1 << 29,
    1 << 29,
    1 << 29,
    3 << 30,
];

/// The raws of five pairs of a curve.
static CURVE: [i64; 10] = [
    0,
    0,
    1 << 29,
    1 << 30,
    1 << 30,
    1 << 31,
    1 << 31,
    3 << 30,
    1 << 32,
    1 << 32,
];

/// The first program: a power of ten of each channel, a matrix and a gain.
pub(crate) fn transforms(times: u32) -> u64 {
    let mut sum = 0u64;
    for n in 0..PIXELS * u64::from(times) {
        sum = sum.wrapping_add(transform(channels(n)));
    }
    sum
}

/// The second program: a loop and a curve over five pairs for each channel.
pub(crate) fn tones(times: u32) -> u64 {
    let mut sum = 0u64;
    for n in 0..PIXELS * u64::from(times) {
        sum = sum.wrapping_add(curved(channels(n)));
    }
    sum
}

/// The third program: a power of each channel, as a half.
pub(crate) fn gammas(times: u32) -> u64 {
    let mut sum = 0u64;
    for n in 0..PIXELS * u64::from(times) {
        sum = sum.wrapping_add(powered(channels(n)));
    }
    sum
}

// The numbers of the codes of a pixel, ten bits each.
fn channels(n: u64) -> [Fix; 3] {
    let seed = n.wrapping_mul(STEP);
    [code(seed >> 54), code(seed >> 44), code(seed >> 34)]
}

fn code(bits: u64) -> Fix {
    Fix::code_in((bits & 0x3ff) as u16, 10)
}

fn sum_of(pixel: &[Fix; 3]) -> u64 {
    let mut sum = 0u64;
    for x in pixel {
        sum = sum.wrapping_mul(31).wrapping_add(u64::from(x.code_out(10)));
    }
    sum
}

fn linear(c: Fix) -> Fix {
    if c.raw() < TENTH {
        return c.mul(Fix::from_raw(TENTH));
    }
    pow10(c.sub(Fix::from_raw(ONE)).mul(Fix::from_raw(TWO)))
}

fn transform(pixel: [Fix; 3]) -> u64 {
    let [red, green, blue] = pixel;
    let mut args = [Fix::ONE; 12];
    args[0] = linear(red);
    args[1] = linear(green);
    args[2] = linear(blue);
    for i in 0..9 {
        args[3 + i] = Fix::from_raw(MATRIX[i]);
    }
    let mut out = [Fix::ONE; 3];
    call(LibraryId::MultF3F33, &[], &[], &args, &mut out);
    let gain = Fix::from_raw(3 << 31);
    sum_of(&[out[0].mul(gain), out[1].mul(gain), out[2].mul(gain)])
}

fn tone(v: Fix) -> Fix {
    let mut w = v;
    for _ in 0..8 {
        if w.raw() <= ONE {
            break;
        }
        w = w.mul(Fix::from_raw(ONE / 2));
    }
    let mut table = [Fix::ONE; 10];
    for i in 0..10 {
        table[i] = Fix::from_raw(CURVE[i]);
    }
    let mut out = [Fix::ONE];
    call(LibraryId::Interpolate1D, &[5], &table, &[w], &mut out);
    out[0]
}

fn curved(pixel: [Fix; 3]) -> u64 {
    let [red, green, blue] = pixel;
    sum_of(&[tone(red), tone(green), tone(blue)])
}

fn powered(pixel: [Fix; 3]) -> u64 {
    let [red, green, blue] = pixel;
    let exponent = Fix::ONE.div(Fix::from_raw(GAMMA));
    let alpha = Fix::ONE;
    sum_of(&[
        pow(red, exponent).mul(alpha).to_half(),
        pow(green, exponent).mul(alpha).to_half(),
        pow(blue, exponent).mul(alpha).to_half(),
    ])
}
