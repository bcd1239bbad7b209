//! Numbers from pixel codes of 8 to 16 bits, and back.

ghost use Rattle.std.specs.Prelude.{◌≡◌, ℤ, pos, ◌^◌, ◌-◌, ◌<◌, ◌≤◌};
ghost use Rattle.fix_num.specs.Fixed.{code_in, code_out, CodesReturn};

use crate::fix::Fix;
use crate::rounding::rnd_natural;
use crate::{FRACTION, ONE_64};

impl Fix {
    /// The number that a code of this many bits stands for: 0 is 0.0 and the greatest code is 1.0.
    pub fn code_in(code: u16, bits: u8) -> Fix
        requires depth { (8 ≤ bits) × (bits ≤ 16) }
        requires fits { code < 2 ^ bits }
        ensures { result ≡ code_in FRACTION code bits }
    {
        Fix::from_raw(rnd_natural(code as u64 * ONE_64, greatest_code(bits)) as i64)
    }

    /// The code of this many bits that is nearest, the number first clamped to 0.0 to 1.0.
    pub fn code_out(self, bits: u8) -> u16
        requires depth { (8 ≤ bits) × (bits ≤ 16) }
        ensures { pos result ≡ code_out FRACTION self bits }
    {
        let within = self.raw().clamp(0, ONE_64 as i64) as u64;
        rnd_natural(within * greatest_code(bits), ONE_64) as u16
    }
}

/// The law that a code which is read and written at the same depth returns.
pub fn codes_return()
    ensures { CodesReturn }
{}

fn greatest_code(bits: u8) -> u64
    requires { (8 ≤ bits) × (bits ≤ 16) }
    ensures value { result ≡ 2 ^ bits - 1 }
    ensures low { 255 ≤ result }
    ensures high { result ≤ 65535 }
{
    (1 << bits) - 1
}
