//! Numbers in digits.

ghost use Rattle.std.specs.Prelude.{◌≡◌, ◌≤◌, ◌<◌, IfSome};
ghost use Rattle.std.specs.Option.{SomeIff};
ghost use Rattle.std.specs.Char.{digit_value};
ghost use Rattle.directives.specs.Number.{more_digits, digits_up_to, decimal_up_to, number_up_to};

const HEXADECIMAL: &[u8] = b"0x";

/// The number that the text writes, decimal or after `0x` in 1 to 16 hexadecimal digits, where it is at most `limit`.
/// A decimal number has no sign and no leading zero.
#[tactic(auto, unfolding(crate::specs::Number::number_up_to))]
pub fn number_up_to(text: &[u8], limit: u64) -> Option<u64>
    ensures is { result ≡ number_up_to limit text.now }
    ensures within { IfSome result (λ number. number ≤ limit) }
{
    if !text.starts_with(HEXADECIMAL) {
        return decimal_up_to(text, limit);
    }
    if text.len() > 18 {
        return None;
    }
    let (_, digits) = text.split_at(2);
    digits_up_to(digits, 16, limit)
}

/// The number that the text writes in decimal digits, without a sign or a leading zero, where it is at most `limit`.
#[tactic(auto, unfolding(crate::specs::Number::decimal_up_to))]
pub fn decimal_up_to(text: &[u8], limit: u64) -> Option<u64>
    ensures is { result ≡ decimal_up_to limit text.now }
    ensures within { IfSome result (λ number. number ≤ limit) }
{
    if text.len() != 1 && text.starts_with(b"0") {
        return None;
    }
    digits_up_to(text, 10, limit)
}

/// The number of one digit or more in this base, where it is at most `limit`.
fn digits_up_to(text: &[u8], base: u32, limit: u64) -> Option<u64>
    requires low { 2 ≤ base }
    requires high { base ≤ 16 }
    ensures is { result ≡ digits_up_to base limit text.now }
    ensures within { IfSome result (λ number. number ≤ limit) }
{
    if text.is_empty() {
        return None;
    }
    let mut number = 0;
    for digit in text {
        number = more_digits(number, *digit, base, limit)?;
    }
    Some(number)
}

/// The number with one digit more, where that is one in this base and the number at most `limit`.
fn more_digits(number: u64, digit: u8, base: u32, limit: u64) -> Option<u64>
    requires low { 2 ≤ base }
    requires high { base ≤ 16 }
    ensures { SomeIff result ((digit_value digit < base) × (more_digits base number digit ≤ limit)) (more_digits base number digit) }
{
    let value = u64::from(char::from(digit).to_digit(base)?);
    let number = u64::from(base).checked_mul(number)?.checked_add(value)?;
    (number <= limit).then_some(number)
}
