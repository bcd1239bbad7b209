//! Matrices of 3 by 3 and 4 by 4 numbers, as slices of their rows one after the other.

ghost use Rattle.std.specs.Prelude.{◌≡◌, ℕ, ℤ, pos, ◌+◌, ◌*◌, ◌%◌, ◌^◌, ◌<◌, ◌≤◌, ◌==◌, ◌⊎◌, length, unsigned_abs, take};
ghost use Rattle.table_lookup.specs.Matrix.{matrix, rows_of, transpose, columns, product3, product4, row_product3, row_sum4, row_product4, kept, minor, det2, det3, det4, with_sign, identity, inverse3, inverse4, sums, scaled};

use crate::ONE_64;
use fix_num::{FRACTION, Fix};

/// The sums of the entries of a and b, of any number. `out` is overwritten.
pub fn add_entries(a: &[Fix], b: &[Fix], out: &mut [Fix])
    requires same { length a.now ≡ length b.now }
    requires room { length a.now ≡ length out.old }
    ensures { out.new ≡ sums a.now b.now }
{
    'entries: for i in 0..a.len() {
        out[i] = a[i].add(b[i]);
    }
}

/// The products of f and the entries of m, of any number. `out` is overwritten.
pub fn scale_entries(f: Fix, m: &[Fix], out: &mut [Fix])
    requires room { length m.now ≡ length out.old }
    ensures { out.new ≡ scaled FRACTION f m.now }
{
    'entries: for i in 0..m.len() {
        out[i] = f.mul(m[i]);
    }
}

/// Rows and columns exchanged. `out` is overwritten.
pub fn transpose_f33(m: &[Fix], out: &mut [Fix])
    requires size { length m.now ≡ 9 }
    requires room { length out.old ≡ 9 }
    ensures { out.new ≡ rows_of 3 (transpose (matrix 3 m.now)) }
{
    out.copy_from_slice(&[
        cell(m, 3, 0, 0),
        cell(m, 3, 1, 0),
        cell(m, 3, 2, 0),
        cell(m, 3, 0, 1),
        cell(m, 3, 1, 1),
        cell(m, 3, 2, 1),
        cell(m, 3, 0, 2),
        cell(m, 3, 1, 2),
        cell(m, 3, 2, 2),
    ]);
}

/// The product of two matrices. `out` is overwritten.
pub fn mult_f33_f33(a: &[Fix], b: &[Fix], out: &mut [Fix])
    requires left { length a.now ≡ 9 }
    requires right { length b.now ≡ 9 }
    requires room { length out.old ≡ 9 }
    ensures { out.new ≡ rows_of 3 (product3 FRACTION (matrix 3 a.now) (matrix 3 b.now)) }
{
    out.copy_from_slice(&[
        product3(a, b, 0, 0),
        product3(a, b, 0, 1),
        product3(a, b, 0, 2),
        product3(a, b, 1, 0),
        product3(a, b, 1, 1),
        product3(a, b, 1, 2),
        product3(a, b, 2, 0),
        product3(a, b, 2, 1),
        product3(a, b, 2, 2),
    ]);
}

/// The inverse, and the identity where the determinant is 0. `out` is overwritten.
pub fn invert_f33(m: &[Fix], out: &mut [Fix])
    requires size { length m.now ≡ 9 }
    requires room { length out.old ≡ 9 }
    ensures { out.new ≡ rows_of 3 (inverse3 FRACTION (matrix 3 m.now)) }
{
    let whole = det_f33(m);
    out.copy_from_slice(&[
        inverse3(m, whole, 0, 0),
        inverse3(m, whole, 0, 1),
        inverse3(m, whole, 0, 2),
        inverse3(m, whole, 1, 0),
        inverse3(m, whole, 1, 1),
        inverse3(m, whole, 1, 2),
        inverse3(m, whole, 2, 0),
        inverse3(m, whole, 2, 1),
        inverse3(m, whole, 2, 2),
    ]);
}

/// Rows and columns exchanged. `out` is overwritten.
pub fn transpose_f44(m: &[Fix], out: &mut [Fix])
    requires size { length m.now ≡ 16 }
    requires room { length out.old ≡ 16 }
    ensures { out.new ≡ rows_of 4 (transpose (matrix 4 m.now)) }
{
    out.copy_from_slice(&[
        cell(m, 4, 0, 0),
        cell(m, 4, 1, 0),
        cell(m, 4, 2, 0),
        cell(m, 4, 3, 0),
        cell(m, 4, 0, 1),
        cell(m, 4, 1, 1),
        cell(m, 4, 2, 1),
        cell(m, 4, 3, 1),
        cell(m, 4, 0, 2),
        cell(m, 4, 1, 2),
        cell(m, 4, 2, 2),
        cell(m, 4, 3, 2),
        cell(m, 4, 0, 3),
        cell(m, 4, 1, 3),
        cell(m, 4, 2, 3),
        cell(m, 4, 3, 3),
    ]);
}

/// The product of two matrices. `out` is overwritten.
pub fn mult_f44_f44(a: &[Fix], b: &[Fix], out: &mut [Fix])
    requires left { length a.now ≡ 16 }
    requires right { length b.now ≡ 16 }
    requires room { length out.old ≡ 16 }
    ensures { out.new ≡ rows_of 4 (product4 FRACTION (matrix 4 a.now) (matrix 4 b.now)) }
{
    out.copy_from_slice(&[
        product4(a, b, 0, 0),
        product4(a, b, 0, 1),
        product4(a, b, 0, 2),
        product4(a, b, 0, 3),
        product4(a, b, 1, 0),
        product4(a, b, 1, 1),
        product4(a, b, 1, 2),
        product4(a, b, 1, 3),
        product4(a, b, 2, 0),
        product4(a, b, 2, 1),
        product4(a, b, 2, 2),
        product4(a, b, 2, 3),
        product4(a, b, 3, 0),
        product4(a, b, 3, 1),
        product4(a, b, 3, 2),
        product4(a, b, 3, 3),
    ]);
}

/// The inverse, and the identity where the determinant is 0. `out` is overwritten.
pub fn invert_f44(m: &[Fix], out: &mut [Fix])
    requires size { length m.now ≡ 16 }
    requires room { length out.old ≡ 16 }
    ensures { out.new ≡ rows_of 4 (inverse4 FRACTION (matrix 4 m.now)) }
{
    let whole = det_f44(m);
    out.copy_from_slice(&[
        inverse4(m, whole, 0, 0),
        inverse4(m, whole, 0, 1),
        inverse4(m, whole, 0, 2),
        inverse4(m, whole, 0, 3),
        inverse4(m, whole, 1, 0),
        inverse4(m, whole, 1, 1),
        inverse4(m, whole, 1, 2),
        inverse4(m, whole, 1, 3),
        inverse4(m, whole, 2, 0),
        inverse4(m, whole, 2, 1),
        inverse4(m, whole, 2, 2),
        inverse4(m, whole, 2, 3),
        inverse4(m, whole, 3, 0),
        inverse4(m, whole, 3, 1),
        inverse4(m, whole, 3, 2),
        inverse4(m, whole, 3, 3),
    ]);
}

/// The product of a row of three numbers and a matrix. `out` is overwritten.
pub fn mult_f3_f33(x: &[Fix], m: &[Fix], out: &mut [Fix])
    requires row { length x.now ≡ 3 }
    requires size { length m.now ≡ 9 }
    requires room { length out.old ≡ 3 }
    ensures { out.new ≡ columns 3 (row_product3 FRACTION x.now (matrix 3 m.now)) }
{
    out.copy_from_slice(&[
        row_product3(x, m, 0),
        row_product3(x, m, 1),
        row_product3(x, m, 2),
    ]);
}

/// The product of a row of three numbers, and 1.0 as its fourth, and a matrix: its first three
/// entries, each divided by the fourth. `out` is overwritten.
pub fn mult_f3_f44(x: &[Fix], m: &[Fix], out: &mut [Fix])
    requires row { length x.now ≡ 3 }
    requires size { length m.now ≡ 16 }
    requires room { length out.old ≡ 3 }
    ensures { out.new ≡ columns 3 (row_product4 FRACTION x.now (matrix 4 m.now)) }
{
    out.copy_from_slice(&[
        row_product4(x, m, 0),
        row_product4(x, m, 1),
        row_product4(x, m, 2),
    ]);
}

/// The determinant.
#[tactic(auto, unfolding(crate::specs::Matrix::det3))]
pub fn det_f33(m: &[Fix]) -> Fix
    requires { length m.now ≡ 9 }
    ensures { result ≡ det3 FRACTION (matrix 3 m.now) }
{
    let first = cell(m, 3, 0, 0).mul(minor_det2(m, 0, 0));
    let second = cell(m, 3, 0, 1).mul(minor_det2(m, 0, 1));
    let third = cell(m, 3, 0, 2).mul(minor_det2(m, 0, 2));
    first.sub(second).add(third)
}

/// The determinant.
#[tactic(auto, unfolding(crate::specs::Matrix::det4))]
pub fn det_f44(m: &[Fix]) -> Fix
    requires { length m.now ≡ 16 }
    ensures { result ≡ det4 FRACTION (matrix 4 m.now) }
{
    let first = cell(m, 4, 0, 0).mul(minor_det3(m, 0, 0));
    let second = cell(m, 4, 0, 1).mul(minor_det3(m, 0, 1));
    let third = cell(m, 4, 0, 2).mul(minor_det3(m, 0, 2));
    let fourth = cell(m, 4, 0, 3).mul(minor_det3(m, 0, 3));
    first.sub(second).add(third).sub(fourth)
}

// The entry in row i and column j of a matrix of n columns.
fn cell(m: &[Fix], n: usize, i: usize, j: usize) -> Fix
    requires inside { n * i + j < length m.now }
    requires few { length m.now ≤ 16 }
    ensures { result ≡ matrix n m.now i j }
{
    m[n * i + j]
}

// An entry of the product.
#[tactic(auto, unfolding(crate::specs::Matrix::product3))]
fn product3(a: &[Fix], b: &[Fix], i: usize, j: usize) -> Fix
    requires left { length a.now ≡ 9 }
    requires right { length b.now ≡ 9 }
    requires row { i < 3 }
    requires column { j < 3 }
    ensures { result ≡ product3 FRACTION (matrix 3 a.now) (matrix 3 b.now) i j }
{
    let first = cell(a, 3, i, 0).mul(cell(b, 3, 0, j));
    let second = cell(a, 3, i, 1).mul(cell(b, 3, 1, j));
    let third = cell(a, 3, i, 2).mul(cell(b, 3, 2, j));
    first.add(second).add(third)
}

// An entry of the product.
#[tactic(auto, unfolding(crate::specs::Matrix::product4))]
fn product4(a: &[Fix], b: &[Fix], i: usize, j: usize) -> Fix
    requires left { length a.now ≡ 16 }
    requires right { length b.now ≡ 16 }
    requires row { i < 4 }
    requires column { j < 4 }
    ensures { result ≡ product4 FRACTION (matrix 4 a.now) (matrix 4 b.now) i j }
{
    let first = cell(a, 4, i, 0).mul(cell(b, 4, 0, j));
    let second = cell(a, 4, i, 1).mul(cell(b, 4, 1, j));
    let third = cell(a, 4, i, 2).mul(cell(b, 4, 2, j));
    let fourth = cell(a, 4, i, 3).mul(cell(b, 4, 3, j));
    first.add(second).add(third).add(fourth)
}

// An entry of the product of a row and a matrix.
#[tactic(auto, unfolding(crate::specs::Matrix::row_product3))]
fn row_product3(x: &[Fix], m: &[Fix], j: usize) -> Fix
    requires row { length x.now ≡ 3 }
    requires size { length m.now ≡ 9 }
    requires column { j < 3 }
    ensures { result ≡ row_product3 FRACTION x.now (matrix 3 m.now) j }
{
    let first = x[0].mul(cell(m, 3, 0, j));
    let second = x[1].mul(cell(m, 3, 1, j));
    let third = x[2].mul(cell(m, 3, 2, j));
    first.add(second).add(third)
}

// An entry of the product of a row, and 1.0 as its fourth, and a matrix.
#[tactic(auto, unfolding(crate::specs::Matrix::row_sum4))]
fn row_sum4(x: &[Fix], m: &[Fix], j: usize) -> Fix
    requires row { length x.now ≡ 3 }
    requires size { length m.now ≡ 16 }
    requires column { j < 4 }
    ensures { result ≡ row_sum4 FRACTION x.now (matrix 4 m.now) j }
{
    let first = x[0].mul(cell(m, 4, 0, j));
    let second = x[1].mul(cell(m, 4, 1, j));
    let third = x[2].mul(cell(m, 4, 2, j));
    first.add(second).add(third).add(cell(m, 4, 3, j))
}

// That entry, divided by the last one.
#[tactic(auto, unfolding(crate::specs::Matrix::row_product4))]
fn row_product4(x: &[Fix], m: &[Fix], j: usize) -> Fix
    requires row { length x.now ≡ 3 }
    requires size { length m.now ≡ 16 }
    requires column { j < 4 }
    ensures { result ≡ row_product4 FRACTION x.now (matrix 4 m.now) j }
{
    row_sum4(x, m, j).div(row_sum4(x, m, 3))
}

// The index of row or column k where one is left out.
#[tactic(auto, unfolding(crate::specs::Matrix::kept))]
fn kept(left_out: usize, k: usize) -> usize
    requires { k < 4 }
    ensures value { result ≡ kept left_out k }
    ensures most { result ≤ k + 1 }
{
    if k < left_out { k } else { k + 1 }
}

// The determinant of a minor of a matrix of 3 by 3.
#[tactic(auto, unfolding(crate::specs::Matrix::det2))]
fn minor_det2(m: &[Fix], i: usize, j: usize) -> Fix
    requires { length m.now ≡ 9 }
    ensures { result ≡ det2 FRACTION (minor i j (matrix 3 m.now)) }
{
    let falling = minor_cell(m, 3, i, j, 0, 0).mul(minor_cell(m, 3, i, j, 1, 1));
    let rising = minor_cell(m, 3, i, j, 0, 1).mul(minor_cell(m, 3, i, j, 1, 0));
    falling.sub(rising)
}

// An entry of the minor that leaves row i and column j out.
fn minor_cell(m: &[Fix], n: usize, i: usize, j: usize, r: usize, c: usize) -> Fix
    requires size { length m.now ≡ n * n }
    requires sides { (n ≡ 3) ⊎ (n ≡ 4) }
    requires row { r + 1 < n }
    requires column { c + 1 < n }
    ensures { result ≡ minor i j (matrix n m.now) r c }
{
    cell(m, n, kept(i, r), kept(j, c))
}

// The determinant of a minor of a matrix of 4 by 4.
fn minor_det3(m: &[Fix], i: usize, j: usize) -> Fix
    requires { length m.now ≡ 16 }
    ensures { result ≡ det3 FRACTION (minor i j (matrix 4 m.now)) }
{
    det_f33(&minor3(m, i, j))
}

fn minor3(m: &[Fix], i: usize, j: usize) -> [Fix; 9]
    requires { length m.now ≡ 16 }
    ensures { result ≡ rows_of 3 (minor i j (matrix 4 m.now)) }
{
    [
        minor_cell(m, 4, i, j, 0, 0),
        minor_cell(m, 4, i, j, 0, 1),
        minor_cell(m, 4, i, j, 0, 2),
        minor_cell(m, 4, i, j, 1, 0),
        minor_cell(m, 4, i, j, 1, 1),
        minor_cell(m, 4, i, j, 1, 2),
        minor_cell(m, 4, i, j, 2, 0),
        minor_cell(m, 4, i, j, 2, 1),
        minor_cell(m, 4, i, j, 2, 2),
    ]
}

fn is_zero(a: Fix) -> bool
    ensures { result ≡ (unsigned_abs a == 0) }
{
    a.raw().unsigned_abs() == 0
}

#[tactic(auto, unfolding(crate::specs::Matrix::with_sign))]
fn with_sign(i: usize, j: usize, a: Fix) -> Fix
    requires { i + j < 8 }
    ensures { result ≡ with_sign i j a }
{
    if (i + j) % 2 == 1 { a.neg() } else { a }
}

fn identity(i: usize, j: usize) -> Fix
    ensures { result ≡ identity FRACTION i j }
{
    if i == j {
        Fix::from_raw(ONE_64 as i64)
    } else {
        Fix::from_raw(0)
    }
}

// An entry of the inverse, from the whole determinant.
#[tactic(auto, unfolding(crate::specs::Matrix::inverse3))]
fn inverse3(m: &[Fix], whole: Fix, i: usize, j: usize) -> Fix
    requires size { length m.now ≡ 9 }
    requires determinant { whole ≡ det3 FRACTION (matrix 3 m.now) }
    requires row { i < 3 }
    requires column { j < 3 }
    ensures { result ≡ inverse3 FRACTION (matrix 3 m.now) i j }
{
    if is_zero(whole) {
        identity(i, j)
    } else {
        with_sign(i, j, minor_det2(m, j, i)).div(whole)
    }
}

// An entry of the inverse, from the whole determinant.
#[tactic(auto, unfolding(crate::specs::Matrix::inverse4))]
fn inverse4(m: &[Fix], whole: Fix, i: usize, j: usize) -> Fix
    requires size { length m.now ≡ 16 }
    requires determinant { whole ≡ det4 FRACTION (matrix 4 m.now) }
    requires row { i < 4 }
    requires column { j < 4 }
    ensures { result ≡ inverse4 FRACTION (matrix 4 m.now) i j }
{
    if is_zero(whole) {
        identity(i, j)
    } else {
        with_sign(i, j, minor_det3(m, j, i)).div(whole)
    }
}
