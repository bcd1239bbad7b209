//! Tables whose entries are spread evenly over a range.

ghost use Rattle.std.specs.Prelude.{◌≡◌, ℤ, ◌<◌, ◌≤◌, length};
ghost use Rattle.table_lookup.specs.Tables.{lookup1, lookup_cubic1, slope};

use crate::axis::{axis, mix};
use crate::curve::{half_difference, hermite};
use ctl_base::limits::SCALARS;
use fix_num::{FRACTION, Fix};

/// The number at p of the line through the entries, which are spread evenly from lo to hi.
/// Beyond them it is the entry at that end.
#[tactic(auto, unfolding(crate::specs::Tables::lookup1))]
pub fn lookup1(t: &[Fix], lo: Fix, hi: Fix, p: Fix) -> Fix
    requires some { 0 < length t.now }
    requires few { length t.now ≤ SCALARS }
    ensures { result ≡ lookup1 FRACTION t.now lo hi p }
{
    let segment = axis(t.len(), lo, hi, p);
    mix(t[segment.low], t[segment.high], segment.part)
}

/// The number at p of the smooth curve through the entries, which are spread evenly from lo to hi.
/// Beyond them it is the entry at that end.
#[tactic(auto, unfolding(crate::specs::Tables::lookup_cubic1))]
pub fn lookup_cubic1(t: &[Fix], lo: Fix, hi: Fix, p: Fix) -> Fix
    requires some { 0 < length t.now }
    requires few { length t.now ≤ SCALARS }
    ensures { result ≡ lookup_cubic1 FRACTION t.now lo hi p }
{
    let segment = axis(t.len(), lo, hi, p);
    if segment.low == segment.high {
        return t[0];
    }
    let leaving = slope(t, segment.low);
    let arriving = slope(t, segment.high);
    hermite(
        t[segment.low],
        t[segment.high],
        leaving,
        arriving,
        segment.part,
    )
}

// The slope of the curve at entry k.
#[tactic(auto, unfolding(crate::specs::Tables::slope))]
fn slope(t: &[Fix], k: usize) -> Fix
    requires some { 2 ≤ length t.now }
    requires inside { k < length t.now }
    ensures { result ≡ slope t.now k }
{
    if k == 0 {
        t[1].sub(t[0])
    } else if k == t.len() - 1 {
        t[k].sub(t[k - 1])
    } else {
        half_difference(t[k + 1], t[k - 1])
    }
}
