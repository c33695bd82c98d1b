//! Decimal numbers in the fields of a format.

ghost use Rattle.std.specs.Prelude.{◌≡◌, ◌<◌, ◌^◌, length, IfSome};
ghost use Rattle.link_base.specs.Decimal.{decimal_number};

/// The number that a text of at most 15 digits writes, zeros before it allowed. An empty text, or one with another
/// byte, writes none.
#[tactic(auto, unfolding(crate::specs::Decimal::decimal_number))]
pub fn decimal_number(text: &[u8]) -> Option<usize>
    requires { length text.now < 16 }
    ensures number { result ≡ decimal_number text.now }
    ensures bound { IfSome result (λ number. number < 10 ^ 15) }
{
    if text.is_empty() {
        return None;
    }
    let mut value = 0;
    for digit in text {
        if !digit.is_ascii_digit() {
            return None;
        }
        value = 10 * value + usize::from(*digit - b'0');
    }
    Some(value)
}
