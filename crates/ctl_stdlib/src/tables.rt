//! Look-ups: each call takes the table, and the words of the other arguments one after the other.

ghost use Rattle.std.specs.Prelude.{◌≡◌, ℕ, ℤ, ◌*◌, ◌%◌, ◌<◌, ◌≤◌, length, get_or, true};
ghost use Rattle.ctl_stdlib.specs.Values.{line_of, curve_of, pair_line_of, pair_curve_of, at_point};

use ctl_base::limits::{ARRAY_SIZE, SCALARS};
use fix_num::{FRACTION, Fix};
use table_lookup::{interp_cubic1, interp1, lookup_cubic1, lookup1, lookup3};

// The line through the entries.
#[tactic(auto, unfolding(crate::specs::Values::line_of))]
pub(crate) fn line(table: &[Fix], args: &[Fix]) -> Fix
    requires some { 0 < length table.now }
    requires few { length table.now ≤ SCALARS }
    requires given { length args.now ≡ 3 }
    ensures { result ≡ line_of FRACTION table.now args.now }
{
    lookup1(table, args[0], args[1], args[2])
}

// The curve through the entries.
#[tactic(auto, unfolding(crate::specs::Values::curve_of))]
pub(crate) fn curve(table: &[Fix], args: &[Fix]) -> Fix
    requires some { 0 < length table.now }
    requires few { length table.now ≤ SCALARS }
    requires given { length args.now ≡ 3 }
    ensures { result ≡ curve_of FRACTION table.now args.now }
{
    lookup_cubic1(table, args[0], args[1], args[2])
}

// The line through the pairs.
#[tactic(auto, unfolding(crate::specs::Values::pair_line_of))]
pub(crate) fn pair_line(table: &[Fix], args: &[Fix]) -> Fix
    requires some { 0 < length table.now }
    requires few { length table.now ≤ SCALARS }
    requires even { length table.now % 2 ≡ 0 }
    requires given { length args.now ≡ 1 }
    ensures { result ≡ pair_line_of FRACTION table.now args.now }
{
    interp1(table, args[0])
}

// The curve through the pairs.
#[tactic(auto, unfolding(crate::specs::Values::pair_curve_of))]
pub(crate) fn pair_curve(table: &[Fix], args: &[Fix]) -> Fix
    requires some { 0 < length table.now }
    requires few { length table.now ≤ SCALARS }
    requires even { length table.now % 2 ≡ 0 }
    requires given { length args.now ≡ 1 }
    ensures { result ≡ pair_curve_of FRACTION table.now args.now }
{
    interp_cubic1(table, args[0])
}

// The three words at a point of a table with three sizes.
#[tactic(auto, unfolding(crate::specs::Values::at_point))]
pub(crate) fn lattice(sizes: &[u32], table: &[Fix], args: &[Fix], out: &mut [Fix]) -> bool
    requires counted { length sizes.now ≡ 3 }
    requires first { (1 ≤ get_or sizes.now 0 0) × (get_or sizes.now 0 0 ≤ ARRAY_SIZE) }
    requires middle { (1 ≤ get_or sizes.now 1 0) × (get_or sizes.now 1 0 ≤ ARRAY_SIZE) }
    requires last { (1 ≤ get_or sizes.now 2 0) × (get_or sizes.now 2 0 ≤ ARRAY_SIZE) }
    requires whole { length table.now ≡ 3 * get_or sizes.now 0 0 * get_or sizes.now 1 0 * get_or sizes.now 2 0 }
    requires few { length table.now ≤ SCALARS }
    requires given { length args.now ≡ 9 }
    requires room { length out.old ≡ 3 }
    ensures filled { out.new ≡ at_point FRACTION sizes.now table.now args.now }
    ensures done { result ≡ true }
{
    let (low, rest) = args.split_at(3);
    let (high, point) = rest.split_at(3);
    lookup3(table, sizes[0], sizes[1], sizes[2], low, high, point, out);
    true
}
