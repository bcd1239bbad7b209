//! Vectors and matrices: each call takes the words of all arguments one after the other.

ghost use Rattle.std.specs.Prelude.{◌≡◌, ℤ, ◌+◌, ◌≤◌, length, true};
ghost use Rattle.ctl_stdlib.specs.Values.{sum_of, difference_of, product_of, dot_of, crossed, cross_of, length_of, row_by_33, row_by_44, product_33, product_44, transpose_33, transpose_44, inverse_33, inverse_44, to_xyz, to_rgb};

use fix_num::{FRACTION, Fix};
use table_lookup::{matrix, rgb_to_xyz};

// The sum of each entry of two lists of n.
#[tactic(auto, unfolding(crate::specs::Values::sum_of))]
pub(crate) fn sum(n: usize, args: &[Fix], out: &mut [Fix]) -> bool
    requires given { length args.now ≡ n + n }
    requires room { length out.old ≡ n }
    requires few { n ≤ 16 }
    ensures filled { out.new ≡ sum_of n args.now }
    ensures done { result ≡ true }
{
    let (a, b) = args.split_at(n);
    matrix::add_entries(a, b, out);
    true
}

// The difference of each entry of two vectors.
#[tactic(auto, unfolding(crate::specs::Values::difference_of))]
pub(crate) fn difference(args: &[Fix], out: &mut [Fix]) -> bool
    requires given { length args.now ≡ 6 }
    requires room { length out.old ≡ 3 }
    ensures filled { out.new ≡ difference_of args.now }
    ensures done { result ≡ true }
{
    let (a, b) = args.split_at(3);
    out.copy_from_slice(&[a[0].sub(b[0]), a[1].sub(b[1]), a[2].sub(b[2])]);
    true
}

// The product of a number with each of n others.
#[tactic(auto, unfolding(crate::specs::Values::product_of))]
pub(crate) fn product(n: usize, args: &[Fix], out: &mut [Fix]) -> bool
    requires given { length args.now ≡ 1 + n }
    requires room { length out.old ≡ n }
    requires few { n ≤ 16 }
    ensures filled { out.new ≡ product_of FRACTION args.now }
    ensures done { result ≡ true }
{
    let (f, m) = args.split_at(1);
    matrix::scale_entries(f[0], m, out);
    true
}

// The sum of the products of each entry of two vectors.
#[tactic(auto, unfolding(crate::specs::Values::dot_of))]
pub(crate) fn dot(args: &[Fix], out: &mut [Fix]) -> bool
    requires given { length args.now ≡ 6 }
    requires room { length out.old ≡ 1 }
    ensures filled { out.new ≡ dot_of FRACTION args.now }
    ensures done { result ≡ true }
{
    let (a, b) = args.split_at(3);
    out.copy_from_slice(&[a[0].mul(b[0]).add(a[1].mul(b[1])).add(a[2].mul(b[2]))]);
    true
}

// The cross product of two vectors.
#[tactic(auto, unfolding(crate::specs::Values::cross_of))]
pub(crate) fn cross(args: &[Fix], out: &mut [Fix]) -> bool
    requires given { length args.now ≡ 6 }
    requires room { length out.old ≡ 3 }
    ensures filled { out.new ≡ cross_of FRACTION args.now }
    ensures done { result ≡ true }
{
    out.copy_from_slice(&[
        crossed(args, 1, 2),
        crossed(args, 2, 0),
        crossed(args, 0, 1),
    ]);
    true
}

#[tactic(auto, unfolding(crate::specs::Values::crossed))]
fn crossed(args: &[Fix], i: usize, j: usize) -> Fix
    requires given { length args.now ≡ 6 }
    requires first { i ≤ 2 }
    requires second { j ≤ 2 }
    ensures { result ≡ crossed FRACTION args.now i j }
{
    let (a, b) = args.split_at(3);
    a[i].mul(b[j]).sub(a[j].mul(b[i]))
}

// The length of a vector.
#[tactic(auto, unfolding(crate::specs::Values::length_of))]
pub(crate) fn size(args: &[Fix], out: &mut [Fix]) -> bool
    requires given { length args.now ≡ 3 }
    requires room { length out.old ≡ 1 }
    ensures filled { out.new ≡ length_of FRACTION args.now }
    ensures done { result ≡ true }
{
    let squares = args[0]
        .mul(args[0])
        .add(args[1].mul(args[1]))
        .add(args[2].mul(args[2]));
    out.copy_from_slice(&[squares.sqrt()]);
    true
}

// The product of a row of three and a matrix of 3 by 3.
#[tactic(auto, unfolding(crate::specs::Values::row_by_33))]
pub(crate) fn row_by_33(args: &[Fix], out: &mut [Fix]) -> bool
    requires given { length args.now ≡ 12 }
    requires room { length out.old ≡ 3 }
    ensures filled { out.new ≡ row_by_33 FRACTION args.now }
    ensures done { result ≡ true }
{
    let (x, m) = args.split_at(3);
    matrix::mult_f3_f33(x, m, out);
    true
}

// The product of a row of three and a matrix of 4 by 4.
#[tactic(auto, unfolding(crate::specs::Values::row_by_44))]
pub(crate) fn row_by_44(args: &[Fix], out: &mut [Fix]) -> bool
    requires given { length args.now ≡ 19 }
    requires room { length out.old ≡ 3 }
    ensures filled { out.new ≡ row_by_44 FRACTION args.now }
    ensures done { result ≡ true }
{
    let (x, m) = args.split_at(3);
    matrix::mult_f3_f44(x, m, out);
    true
}

// The product of two matrices of 3 by 3.
#[tactic(auto, unfolding(crate::specs::Values::product_33))]
pub(crate) fn product_33(args: &[Fix], out: &mut [Fix]) -> bool
    requires given { length args.now ≡ 18 }
    requires room { length out.old ≡ 9 }
    ensures filled { out.new ≡ product_33 FRACTION args.now }
    ensures done { result ≡ true }
{
    let (a, b) = args.split_at(9);
    matrix::mult_f33_f33(a, b, out);
    true
}

// The product of two matrices of 4 by 4.
#[tactic(auto, unfolding(crate::specs::Values::product_44))]
pub(crate) fn product_44(args: &[Fix], out: &mut [Fix]) -> bool
    requires given { length args.now ≡ 32 }
    requires room { length out.old ≡ 16 }
    ensures filled { out.new ≡ product_44 FRACTION args.now }
    ensures done { result ≡ true }
{
    let (a, b) = args.split_at(16);
    matrix::mult_f44_f44(a, b, out);
    true
}

// Rows and columns exchanged.
#[tactic(auto, unfolding(crate::specs::Values::transpose_33))]
pub(crate) fn transpose_33(args: &[Fix], out: &mut [Fix]) -> bool
    requires given { length args.now ≡ 9 }
    requires room { length out.old ≡ 9 }
    ensures filled { out.new ≡ transpose_33 args.now }
    ensures done { result ≡ true }
{
    matrix::transpose_f33(args, out);
    true
}

// Rows and columns exchanged.
#[tactic(auto, unfolding(crate::specs::Values::transpose_44))]
pub(crate) fn transpose_44(args: &[Fix], out: &mut [Fix]) -> bool
    requires given { length args.now ≡ 16 }
    requires room { length out.old ≡ 16 }
    ensures filled { out.new ≡ transpose_44 args.now }
    ensures done { result ≡ true }
{
    matrix::transpose_f44(args, out);
    true
}

// The inverse of a matrix of 3 by 3.
#[tactic(auto, unfolding(crate::specs::Values::inverse_33))]
pub(crate) fn inverse_33(args: &[Fix], out: &mut [Fix]) -> bool
    requires given { length args.now ≡ 9 }
    requires room { length out.old ≡ 9 }
    ensures filled { out.new ≡ inverse_33 FRACTION args.now }
    ensures done { result ≡ true }
{
    matrix::invert_f33(args, out);
    true
}

// The inverse of a matrix of 4 by 4.
#[tactic(auto, unfolding(crate::specs::Values::inverse_44))]
pub(crate) fn inverse_44(args: &[Fix], out: &mut [Fix]) -> bool
    requires given { length args.now ≡ 16 }
    requires room { length out.old ≡ 16 }
    ensures filled { out.new ≡ inverse_44 FRACTION args.now }
    ensures done { result ≡ true }
{
    matrix::invert_f44(args, out);
    true
}

// The matrix from red, green and blue to XYZ.
#[tactic(auto, unfolding(crate::specs::Values::to_xyz))]
pub(crate) fn to_xyz(args: &[Fix], out: &mut [Fix]) -> bool
    requires given { length args.now ≡ 9 }
    requires room { length out.old ≡ 16 }
    ensures filled { out.new ≡ to_xyz FRACTION args.now }
    ensures done { result ≡ true }
{
    let (points, luminance) = args.split_at(8);
    rgb_to_xyz(points, luminance[0], out);
    true
}

// The inverse of that matrix.
#[tactic(auto, unfolding(crate::specs::Values::to_rgb))]
pub(crate) fn to_rgb(args: &[Fix], out: &mut [Fix]) -> bool
    requires given { length args.now ≡ 9 }
    requires room { length out.old ≡ 16 }
    ensures filled { out.new ≡ to_rgb FRACTION args.now }
    ensures done { result ≡ true }
{
    let mut matrix = [Fix::ONE; 16];
    to_xyz(args, &mut matrix);
    inverse_44(&matrix, out)
}
