//! The words that follow an option, one by one.

ghost use Rattle.std.specs.Prelude.{◌≡◌, ℕ, ◌≤◌, ◌^◌, List, All, MatchOption, nat_eq};
ghost use Rattle.std.specs.List.{list_all, list_any};
ghost use Rattle.fix_num.specs.Decimal.{IsDigit, number};
ghost use Rattle.command_line.specs.Options.{Depth, Name, Number, Watcher, Whole};
ghost use Rattle.command_line.specs.Following.{begins_name, is_in_name, is_name, depth_of, watcher_kind, watcher_of, Natural, Raw, SpellsWhole};
ghost use Rattle.command_line.specs.Taking.{Tells};

use crate::list::split;
use fix_num::{Fix, digits_grow, read_decimal, spells_once};

/// Whether a parameter may have the name.
pub(crate) fn is_name(word: &[u8]) -> bool
    ensures { result ≡ is_name word.now }
{
    match split(word) {
        Some((first, rest)) => begins_name(*first) && are_in_name(rest),
        None => false,
    }
}

fn are_in_name(bytes: &[u8]) -> bool
    ensures { result ≡ list_all is_in_name bytes.now }
{
    bytes.iter().all(|b| is_in_name(*b))
}

#[tactic(auto, unfolding(crate::specs::Following::begins_name))]
fn begins_name(b: u8) -> bool
    ensures { result ≡ begins_name b }
{
    matches!(b, b'A'..=b'Z' | b'a'..=b'z' | b'_')
}

#[tactic(auto, unfolding(crate::specs::Following::is_in_name))]
fn is_in_name(b: u8) -> bool
    ensures { result ≡ is_in_name b }
{
    begins_name(b) || matches!(b, b'0'..=b'9')
}

/// The number of a word, where it is a decimal number.
pub(crate) fn number(word: &[u8]) -> Option<Fix>
    ensures { (kinds : List ℕ) → Tells kinds Number Raw word.now result }
{
    spells_once();
    match read_decimal(word) {
        Ok(number) => Some(number),
        Err(_) => None,
    }
}

/// The depth that a format says, 0 where it is the source's.
pub(crate) fn depth(word: &[u8]) -> Option<u8>
    ensures { result ≡ depth_of word.now }
{
    if word == b"dpx".as_slice() {
        Some(0)
    } else if word == b"dpx10".as_slice() {
        Some(10)
    } else if word == b"dpx16".as_slice() {
        Some(16)
    } else {
        None
    }
}

/// The number of a kind of watcher, where one was handed in.
pub(crate) fn watcher(word: &[u8], kinds: &[u8]) -> Option<u8>
    ensures { result ≡ watcher_of kinds.now word.now }
{
    match watcher_kind(word) {
        Some(kind) if is_among(kind, kinds) => Some(kind),
        _ => None,
    }
}

fn is_among(kind: u8, kinds: &[u8]) -> bool
    ensures { result ≡ list_any (nat_eq kind) kinds.now }
{
    kinds.iter().any(|known| kind == *known)
}

// The number of a kind of watcher.
fn watcher_kind(word: &[u8]) -> Option<u8>
    ensures { result ≡ watcher_kind word.now }
{
    if word == b"range".as_slice() {
        Some(1)
    } else if word == b"clip".as_slice() {
        Some(2)
    } else if word == b"sum".as_slice() {
        Some(3)
    } else if word == b"bins".as_slice() {
        Some(4)
    } else {
        None
    }
}

/// The number that a run of digits spells, where it has 32 bits.
pub(crate) fn whole(word: &[u8]) -> Option<u32>
    ensures { MatchOption result ((n : ℕ) → SpellsWhole word.now n → ⊥) (λ n. SpellsWhole word.now n) }
{
    if word.is_empty() || !word.iter().all(|b| b.is_ascii_digit()) {
        return None;
    }
    number_of_digits(word)
}

// The number that digits spell, where it has 32 bits.
fn number_of_digits(digits: &[u8]) -> Option<u32>
    requires { All IsDigit digits.now }
    ensures { MatchOption result (2 ^ 32 ≤ number digits.now) (λ n. n ≡ number digits.now) }
{
    digits_grow();
    let mut value = 0u64;
    'each: for b in digits {
        value = 10 * value + u64::from(*b - b'0');
        if u64::from(u32::MAX) < value {
            return None;
        }
    }
    Some(value as u32)
}
