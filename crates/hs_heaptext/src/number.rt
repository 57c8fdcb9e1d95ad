//! Signed decimals.

ghost use Rattle.std.specs.Prelude.{◌≡◌, ℕ, ℤ, ◌+◌, ◌-◌, ◌*◌, ◌<◌, ◌≤◌, ◌^◌, MatchOption};
ghost use Rattle.std.specs.Int.{IsInRange};
ghost use Rattle.std.specs.Fmt.{decimal, signed_decimal};
ghost use Rattle.hs_heaptext.specs.Values.{IsSmall};

use crate::line::behind;

/// The greatest magnitude of a value.
const TOP: u128 = 1 << 126;

// A number with one more digit at its end.
fn with_digit(number: u128, digit: u8) -> Option<u128>
    requires { number ≤ 2 ^ 126 }
    ensures { MatchOption result (IsInRange 48 57 digit → 2 ^ 126 < number * 10 + (digit - 48)) (λ n. IsInRange 48 57 digit × (n ≡ number * 10 + (digit - 48)) × (n ≤ 2 ^ 126)) }
{
    if !digit.is_ascii_digit() {
        return None;
    }
    let tens = number.checked_mul(10)?;
    let next = tens.checked_add(u128::from(digit - b'0'))?;
    if next > TOP { None } else { Some(next) }
}

/// The number from 0 to 2^126 of which the text is the decimal.
fn natural(digits: &[u8]) -> Option<u128>
    ensures { MatchOption result ((n : ℕ) → n ≤ 2 ^ 126 → ¬ (digits.now ≡ decimal n)) (λ n. (n ≤ 2 ^ 126) × (digits.now ≡ decimal n)) }
{
    let (first, rest) = digits.split_first()?;
    if *first == b'0' {
        return if rest.is_empty() { Some(0) } else { None };
    }
    let mut number = 0;
    for digit in digits {
        number = with_digit(number, *digit)?;
    }
    Some(number)
}

/// The value within 2^126 of which the text is the signed decimal.
pub fn value(text: &[u8]) -> Option<i128>
    ensures { MatchOption result ((x : ℤ) → IsSmall x → ¬ (text.now ≡ signed_decimal x)) (λ x. IsSmall x × (text.now ≡ signed_decimal x)) }
{
    let Some(digits) = behind(text, b"-") else {
        return Some(natural(text)? as i128);
    };
    let number = natural(digits)?;
    if number == 0 {
        return None;
    }
    Some(-(number as i128))
}
