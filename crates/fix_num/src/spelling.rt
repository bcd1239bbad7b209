//! The parts of a decimal spelling, and the number that its digits make.

ghost use Rattle.std.specs.Prelude.{◌≡◌, ℕ, ℤ, ◌^◌, ◌<◌, ◌≤◌, Option, MatchOption, All, length};
ghost use Rattle.std.specs.Char.{is_ascii_digit};
ghost use Rattle.std.specs.List.{take_while};
ghost use Rattle.fix_num.specs.Decimal.{Decimal, Spells, SpellsExponent, SpellsPower, exponent_or_zero, IsDigit, number_from, most_digits};
ghost use Rattle.fix_num.specs.Cutting.{is_negative, after_sign, digits_in_front, after_digits, after_point, Says};

// 1 with as many zeros as there may be significant digits.
const DIGIT_LIMIT: u128 = 10_000_000_000_000_000_000_000_000;

// What a spelling says: its sign, the digits before and after the point, and the exponent, 0 where there is none.
#[derive(Drop)]
pub(crate) struct Parts<'a> {
    pub(crate) negative: bool,
    pub(crate) whole: &'a [u8],
    pub(crate) part: &'a [u8],
    pub(crate) exponent: i128,
}

// The parts of a text, where it is a spelling.
pub(crate) fn split_parts(text: &[u8]) -> Option<Parts<'_>>
    ensures { MatchOption result ((d : Decimal) → Spells text.now d → ⊥) (λ p. Says text.now p.negative p.whole.now p.part.now p.exponent) }
{
    let (negative, unsigned) = split_sign(text);
    let (whole, rest) = split_digits(unsigned);
    let (part, scale) = split_digits(skip_point(rest));
    if whole.is_empty() && part.is_empty() {
        return None;
    }
    let exponent = read_exponent(scale)?;
    Some(Parts {
        negative,
        whole,
        part,
        exponent,
    })
}

// Whether a minus stands in front, and what follows the sign.
fn split_sign(text: &[u8]) -> (bool, &[u8])
    ensures negative { result.0 ≡ is_negative text.now }
    ensures rest { result.1.now ≡ after_sign text.now }
{
    match text {
        [b'-', rest @ ..] => (true, rest),
        [b'+', rest @ ..] => (false, rest),
        _ => (false, text),
    }
}

// The digits in front, and what follows them.
fn split_digits(text: &[u8]) -> (&[u8], &[u8])
    ensures digits { result.0.now ≡ digits_in_front text.now }
    ensures rest { result.1.now ≡ after_digits text.now }
{
    text.split_at(digit_count(text))
}

fn digit_count(text: &[u8]) -> usize
    ensures { result ≡ length (take_while is_ascii_digit text.now) }
{
    text.iter().take_while(|b| b.is_ascii_digit()).count()
}

fn skip_point(text: &[u8]) -> &[u8]
    ensures { result.now ≡ after_point text.now }
{
    match text {
        [b'.', rest @ ..] => rest,
        _ => text,
    }
}

// The exponent that a text spells, 0 where it is empty.
fn read_exponent(text: &[u8]) -> Option<i128>
    ensures { MatchOption result ((e : Option ℤ) → SpellsExponent text.now e → ⊥) (λ z. (e : Option ℤ) × SpellsExponent text.now e × (exponent_or_zero e ≡ z)) }
{
    match text {
        [] => Some(0),
        [mark, power @ ..] if *mark == b'e' || *mark == b'E' => read_power(power),
        _ => None,
    }
}

// An optional sign and one to four digits.
fn read_power(text: &[u8]) -> Option<i128>
    ensures { MatchOption result ((z : ℤ) → SpellsPower text.now z → ⊥) (λ z. SpellsPower text.now z) }
{
    let (negative, unsigned) = split_sign(text);
    let (digits, rest) = split_digits(unsigned);
    if digits.is_empty() || 4 < digits.len() || !rest.is_empty() {
        return None;
    }
    let size = more_digits(0, digits)? as i128;
    Some(if negative { -size } else { size })
}

// The number that the digits before and after a point spell together, where few enough are significant.
pub(crate) fn number_of(whole: &[u8], part: &[u8]) -> Option<u128>
    requires whole_digits { All IsDigit whole.now }
    requires part_digits { All IsDigit part.now }
    ensures { MatchOption result (10 ^ most_digits ≤ number_from (number_from 0 whole.now) part.now) (λ n. (n ≡ number_from (number_from 0 whole.now) part.now) × (n < 10 ^ most_digits)) }
{
    let before = more_digits(0, whole)?;
    more_digits(before, part)
}

// The number that digits spell after those that spell `before`, where it stays below the limit.
fn more_digits(before: u128, digits: &[u8]) -> Option<u128>
    requires are_digits { All IsDigit digits.now }
    requires below { before < 10 ^ most_digits }
    ensures { MatchOption result (10 ^ most_digits ≤ number_from before digits.now) (λ n. (n ≡ number_from before digits.now) × (n < 10 ^ most_digits)) }
{
    let mut value = before;
    'each: for b in digits {
        value = 10 * value + (*b - b'0') as u128;
        if DIGIT_LIMIT <= value {
            return None;
        }
    }
    Some(value)
}
