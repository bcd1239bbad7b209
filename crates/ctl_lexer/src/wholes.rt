//! Whole numbers.

ghost use Rattle.std.specs.Prelude.{◌≡◌, ◌<◌, ◌≤◌, ◌^◌, ℕ, All, length, true, MatchOption};
ghost use Rattle.fix_num.specs.Decimal.{IsDigit, number};
ghost use Rattle.ctl_tree.specs.TokenBytes.{begins_hexadecimal, hexadecimal_digit, hexadecimal_number, IsHexadecimalDigit, IsDigits, IsHexadecimal, IsWhole};
ghost use Rattle.ctl_lexer.specs.Means.{NoDigits, NoHexadecimal, NoWhole};

use fix_num::digits_grow;

// The first number that a whole number cannot be.
const LIMIT: u64 = 1 << 32;

pub(crate) fn begins_hexadecimal(bytes: &[u8]) -> bool
    ensures { result ≡ begins_hexadecimal bytes.now }
{
    matches!(bytes, [b'0', b'x' | b'X', ..])
}

// The number that digits spell, where it is small enough.
fn decimal_value(digits: &[u8]) -> Option<u64>
    requires { All IsDigit digits.now }
    ensures { MatchOption result (2 ^ 32 ≤ number digits.now) (λ n. (n ≡ number digits.now) × (n < 2 ^ 32)) }
{
    digits_grow();
    let mut value = 0;
    for b in digits {
        value = 10 * value + (*b - b'0') as u64;
        if LIMIT <= value {
            return None;
        }
    }
    Some(value)
}

// What a hexadecimal digit counts.
fn digit_value(b: u8) -> u8
    requires { IsHexadecimalDigit b }
    ensures { result ≡ hexadecimal_digit b }
{
    if b <= b'9' {
        b - b'0'
    } else if b <= b'F' {
        b - b'A' + 10
    } else {
        b - b'a' + 10
    }
}

// The number that hexadecimal digits spell, where it is small enough.
fn hexadecimal_value(digits: &[u8]) -> Option<u64>
    requires { All IsHexadecimalDigit digits.now }
    ensures { MatchOption result (2 ^ 32 ≤ hexadecimal_number digits.now) (λ n. (n ≡ hexadecimal_number digits.now) × (n < 2 ^ 32)) }
{
    let mut value = 0;
    for b in digits {
        value = 16 * value + digit_value(*b) as u64;
        if LIMIT <= value {
            return None;
        }
    }
    Some(value)
}

// The whole number with these digits.
fn decimal_whole(bytes: &[u8]) -> Option<u32>
    ensures { MatchOption result (NoDigits bytes.now) (IsDigits bytes.now) }
{
    if bytes.is_empty() || !bytes.iter().all(|b| b.is_ascii_digit()) {
        return None;
    }
    let value = decimal_value(bytes)?;
    Some(value as u32)
}

// The whole number with 0x and these hexadecimal digits.
fn hexadecimal_whole(bytes: &[u8]) -> Option<u32>
    requires { begins_hexadecimal bytes.now ≡ true }
    ensures { MatchOption result (NoHexadecimal bytes.now) (IsHexadecimal bytes.now) }
{
    let digits = &bytes[2..];
    if digits.is_empty() || 8 < digits.len() || !digits.iter().all(|b| b.is_ascii_hexdigit()) {
        return None;
    }
    let value = hexadecimal_value(digits)?;
    Some(value as u32)
}

// The whole number with these bytes.
pub(crate) fn whole_of(bytes: &[u8]) -> Option<u32>
    ensures { MatchOption result (NoWhole bytes.now) (IsWhole bytes.now) }
{
    if begins_hexadecimal(bytes) {
        hexadecimal_whole(bytes)
    } else {
        decimal_whole(bytes)
    }
}
