//! The rule of an initialiser as a whole, and the limits of what it gives.

ghost use Rattle.std.specs.Prelude.{◌≡◌, ◌+◌, ◌*◌, ◌≤◌, min, map};
ghost use Rattle.ctl_types.specs.Shapes.{product, base_scalars};
ghost use Rattle.ctl_types.specs.Typing.{size_counted};
ghost use Rattle.ctl_base.specs.declared.limits.TheConstants.{SCALARS};
ghost use Rattle.ctl_check_rules.specs.Faults.{Gives, rule_at};
ghost use Rattle.ctl_check_init.specs.Initialisers.{sizes_within, is_within, begun_rule};

use crate::begun::Begun;
use ctl_base::limits::{ARRAY_SIZE, SCALARS};
use ctl_check_rules::{ExprFault, broken};
use ctl_scope::{CheckKind, Scope};
use ctl_types::{Base, Size};

/// The rule of an initialiser at the own token of what is declared with it, after all that stands in the initialiser:
/// it is Mismatch where it does not fit, and BadSize where the sizes that it gives are too large.
pub fn check_begun(
    scope: &Scope,
    token: u32,
    base: Base,
    given: Option<Begun>,
) -> Result<Begun, ExprFault>
    ensures { Gives result (rule_at scope.now.unit token (begun_rule scope.now.counts base given)) }
{
    let Some(given) = given else {
        return Err(broken(scope.unit(), token, CheckKind::Mismatch));
    };
    if !is_within(scope.counts(), given.sizes.as_slice(), base) {
        return Err(broken(scope.unit(), token, CheckKind::BadSize));
    }
    Ok(given)
}

// Whether neither a size nor the number of scalars is too large.
fn is_within(counts: &[u32], sizes: &[Size], base: Base) -> bool
    ensures { result ≡ is_within counts.now sizes.now base }
{
    sizes_within(sizes) && scalars(sizes, base_scalars(counts, base)) <= SCALARS
}

// Whether no size is above the limit.
fn sizes_within(sizes: &[Size]) -> bool
    ensures { result ≡ sizes_within sizes.now }
{
    for size in sizes {
        if counted(*size) > ARRAY_SIZE {
            return false;
        }
    }
    true
}

// An open size counts as one.
fn counted(size: Size) -> u32
    ensures { result ≡ size_counted size }
{
    match size {
        Size::Stated(n) => n,
        Size::Open(_) => 1,
    }
}

// The scalars of a base.
fn base_scalars(counts: &[u32], base: Base) -> u32
    ensures { result ≡ base_scalars counts.now base }
{
    match base {
        Base::Scalar(_) => 1,
        Base::Struct(n) => match counts.get(n as usize) {
            Some(count) => *count,
            None => 0,
        },
    }
}

// The scalars of arrays of these sizes around a base that has so many, where more than the limit count as one more.
#[tactic(auto, using(crate::proofs::Capping::capped_around))]
fn scalars(sizes: &[Size], inner: u32) -> u32
    ensures { result ≡ min (product (map size_counted sizes.now) * inner) (SCALARS + 1) }
{
    match sizes.split_first() {
        Some((size, rest)) => capped(counted(*size), scalars(rest, inner)),
        None => inner.min(SCALARS + 1),
    }
}

// A product of which no more is told than that it is above the limit.
fn capped(a: u32, b: u32) -> u32
    requires { b ≤ SCALARS + 1 }
    ensures { result ≡ min (a * b) (SCALARS + 1) }
{
    let product = a as u64 * b as u64;
    product.min(SCALARS as u64 + 1) as u32
}
