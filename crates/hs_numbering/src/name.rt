//! What the bytes of a name tell.

ghost use Rattle.std.specs.Prelude.{◌≡◌};
ghost use Rattle.hs_numbering.specs.Names as spec;

use hs_pure::Var;
use hs_text::Text;

/// Whether the name begins with an upper-case letter, so that it is a bag where it names a variable.
pub fn is_upper(name: &Text) -> bool
    ensures { result ≡ spec.is_upper name.now }
{
    match name.as_str().as_bytes().first() {
        Some(b) => *b >= 65 && *b <= 90,
        None => false,
    }
}

fn add_digit(found: Option<u32>, b: u8) -> Option<u32>
    ensures { result ≡ spec.add_digit found b }
{
    let Some(number) = found else {
        return None;
    };
    if b < 48 || b > 57 {
        return None;
    }
    let number = u64::from(number) * 10 + u64::from(b - 48);
    if number < 1 << 32 {
        return Some(number as u32);
    }
    None
}

fn decimal(digits: &[u8]) -> Option<u32>
    ensures { result ≡ spec.decimal digits.now }
{
    let mut found = Some(0);
    for b in digits {
        found = add_digit(found, *b);
    }
    found
}

fn number_of(digits: &[u8]) -> Option<u32>
    ensures { result ≡ spec.number_of digits.now }
{
    match digits.first() {
        None => None,
        Some(b) => { if *b == 48 { None } else { decimal(digits) } }
    }
}

/// The variable that the name has in the numbered form of a formula: of `vK` it is the number K, of `VK` the
/// bag K, with K from 1 to 2^32 - 1 in decimal digits without leading zeros. No other name has one.
pub fn numbered_var(name: &Text) -> Option<Var>
    ensures { result ≡ spec.numbered_var name.now }
{
    let bytes = name.as_str().as_bytes();
    if bytes.is_empty() || bytes[0] != 118 && bytes[0] != 86 {
        return None;
    }
    let bag = bytes[0] == 86;
    match number_of(&bytes[1..]) {
        Some(number) => Some(Var { number, bag }),
        None => None,
    }
}
