//! Counts and sums that stop at 2^64 - 1, and where codes are counted.

ghost use Rattle.std.specs.Prelude.{◌≡◌, ◌<◌, ◌≤◌, ◌^◌, if◌then◌else◌};
ghost use Rattle.ctl_base.specs.Steps.{grown, one_more};
ghost use Rattle.line_watch.specs.Tally.{bin_of, greatest_code};

/// A count, with one more where there is one.
pub(crate) fn counted(count: u64, more: bool) -> u64
    ensures { result ≡ (if more then one_more count else count) }
{
    if more { count.saturating_add(1) } else { count }
}

/// A sum, with one more code.
pub(crate) fn summed(sum: u64, code: u16) -> u64
    ensures { result ≡ grown sum code }
{
    sum.saturating_add(u64::from(code))
}

/// The greatest code of so many bits.
pub(crate) fn greatest(depth: u8) -> u32
    requires { (8 ≤ depth) × (depth ≤ 16) }
    ensures { result ≡ greatest_code depth }
{
    (1 << depth) - 1
}

/// The bin of a code among sixteen.
pub(crate) fn bin(depth: u8, code: u16) -> u8
    requires depth { (8 ≤ depth) × (depth ≤ 16) }
    requires fit { code < 2 ^ depth }
    ensures value { result ≡ bin_of depth code }
    ensures within { result < 16 }
{
    (u32::from(code) * 16 >> depth) as u8
}
