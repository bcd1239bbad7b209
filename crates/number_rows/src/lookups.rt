//! Worked values, and tables of cases at the edges.

mod cases;
mod tables;
mod worked;

use fix_num::{Fix, saturated};
use std::process::Abort;

fn number(raw: i64) -> Fix {
    saturated(raw as i128)
}

fn numbers<const N: usize>(raws: &[i64; N]) -> [Fix; N] {
    let mut out = [number(0); N];
    for (word, raw) in out.iter_mut().zip(raws) {
        *word = number(*raw);
    }
    out
}

fn gives(rt: &impl Abort, function: &str, at: i64, got: Fix, want: i64) {
    assert_eq!(rt; got.raw(), want, "{function} at {at}");
}

fn fills(rt: &impl Abort, function: &str, got: &[Fix], wants: &[i64]) {
    let same = got.len() == wants.len()
        && got
            .iter()
            .zip(wants)
            .all(|(word, want)| word.raw() == *want);
    assert!(rt; same, "{function}");
}
