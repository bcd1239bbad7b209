//! Cubic curves between two entries.

ghost use Rattle.std.specs.Prelude.{◌≡◌, ℤ};
ghost use Rattle.table_lookup.specs.Between.{hermite, half_difference, half_sum};

use crate::ONE_64;
use crate::axis::{span, wide};
use fix_num::{FRACTION, Fix, rnd, saturated};

/// The cubic from a with slope m0 to b with slope m1, at f of the way.
#[tactic(auto, unfolding(crate::specs::Between::hermite))]
pub fn hermite(a: Fix, b: Fix, m0: Fix, m1: Fix, f: Fix) -> Fix
    ensures { result ≡ hermite FRACTION a b m0 m1 f }
{
    let two = Fix::from_raw(2 * ONE_64 as i64);
    let three = Fix::from_raw(3 * ONE_64 as i64);
    let d = b.sub(a);
    let square = three.mul(d).sub(two.mul(m0)).sub(m1);
    let cube = m0.add(m1).sub(two.mul(d));
    a.add(f.mul(m0.add(f.mul(square.add(f.mul(cube))))))
}

/// Half the difference, rounded once.
pub fn half_difference(a: Fix, b: Fix) -> Fix
    ensures { result ≡ half_difference a b }
{
    saturated(rnd(span(b, a), 2))
}

/// Half the sum, rounded once.
pub fn half_sum(a: Fix, b: Fix) -> Fix
    ensures { result ≡ half_sum a b }
{
    saturated(rnd(wide(a) + wide(b), 2))
}
