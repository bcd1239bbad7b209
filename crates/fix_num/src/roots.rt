//! Square roots, rounded down.

ghost use Rattle.std.specs.Prelude.{◌≡◌, ℤ, ◌*◌, ◌+◌, ◌<◌, ◌≤◌};
ghost use Rattle.fix_num.specs.Fixed.{root, RootIsFloor, fix_sqrt};

use crate::FRACTION;
use crate::fix::Fix;

/// The greatest whole number whose square is at most n.
pub fn isqrt(n: u128) -> u64
    ensures value { result ≡ root n }
    ensures low { result * result ≤ n }
    ensures high { n < (result + 1) * (result + 1) }
{
    n.isqrt() as u64
}

/// The law that pins the root.
pub fn root_is_floor()
    ensures { RootIsFloor }
{}

impl Fix {
    /// The square root, rounded down, and 0 for a negative number.
    pub fn sqrt(self) -> Fix
        ensures { result ≡ fix_sqrt FRACTION self }
    {
        if self.raw() < 0 {
            Fix::from_raw(0)
        } else {
            Fix::from_raw(isqrt((self.raw() as u128) << FRACTION) as i64)
        }
    }
}
