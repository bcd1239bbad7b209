//! Counts as they are told.

ghost use Rattle.std.specs.Prelude.{◌≡◌, ◌+◌, ◌*◌};
ghost use Rattle.level_counts.specs.Told.{told};

/// So many and so many.
pub fn and(a: u64, b: u64) -> u64
    ensures { result ≡ told (a + b) }
{
    a.saturating_add(b)
}

/// So many times so many.
pub fn times(a: u64, b: u64) -> u64
    ensures { result ≡ told (a * b) }
{
    a.saturating_mul(b)
}
