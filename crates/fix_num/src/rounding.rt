//! Rounding to the nearest whole number.

ghost use Rattle.std.specs.Prelude.{◌≡◌, ℕ, ℤ, pos, ◌+ℤ◌, ◌-ℤ◌, ◌*ℤ◌, ◌<ℤ◌, ◌≤ℤ◌, ◌^◌, ◌*◌, ◌+◌, ◌<◌, ◌≤◌, unsigned_abs};
ghost use Rattle.fix_num.specs.Fixed.{rnd, FloorIsGreatest, RoundingIsNearest, RoundingKeepsBounds};

/// `n / d` rounded to the nearest whole number. Of two that are equally near, the greater.
pub fn rnd(n: i128, d: i128) -> i128
    requires positive { pos 0 <ℤ d }
    requires room { (pos (2 * unsigned_abs n) +ℤ d) <ℤ pos (2 ^ 127) }
    ensures { result ≡ rnd n d }
{
    let (whole, rest) = split(n, d);
    if 0 <= rest {
        if d - rest <= rest { whole + 1 } else { whole }
    } else {
        if d + rest < -rest { whole - 1 } else { whole }
    }
}

// The quotient toward zero, and what is left of n.
fn split(n: i128, d: i128) -> (i128, i128)
    requires positive { pos 0 <ℤ d }
    requires room { unsigned_abs n < 2 ^ 126 }
    ensures parts { n ≡ result.0 *ℤ d +ℤ result.1 }
    ensures small { unsigned_abs result.0 < 2 ^ 126 }
    ensures high { result.1 <ℤ d }
    ensures low { (pos 0 -ℤ d) <ℤ result.1 }
{
    let whole = n / d;
    (whole, n - whole * d)
}

/// `n / 2^bits` rounded to the nearest whole number. Of two that are equally near, the greater.
pub fn rnd_shift(n: i128, bits: u32) -> i128
    requires small { bits ≤ 126 }
    requires room { 2 * unsigned_abs n + 2 ^ bits < 2 ^ 127 }
    ensures { result ≡ rnd n (pos (2 ^ bits)) }
{
    (2 * n + (1 << bits)) >> (bits + 1)
}

// `rnd` of a quotient that is not negative.
pub(crate) fn rnd_natural(n: u64, d: u64) -> u64
    requires positive { 0 < d }
    requires room { 2 * n + 2 * d < 2 ^ 64 }
    ensures value { pos result ≡ rnd (pos n) (pos d) }
    ensures bound { (most : ℕ) → n ≤ most * d → result ≤ most }
{
    (2 * n + d) / (2 * d)
}

/// The law that pins floor division.
pub fn floor_is_greatest()
    ensures { FloorIsGreatest }
{}

/// The law that pins rounding.
pub fn rounding_is_nearest()
    ensures { RoundingIsNearest }
{}

/// The law that rounding keeps between whole numbers.
pub fn rounding_keeps_bounds()
    ensures { RoundingKeepsBounds }
{}
