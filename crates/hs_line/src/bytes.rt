//! Bytes of one kind.

ghost use Rattle.std.specs.Prelude.{◌≡◌, ◌≤◌, length, take_while};
ghost use Rattle.hs_lex.specs.Tokens as bytes;
ghost use Rattle.hs_line.specs.Scan as spec;
ghost use Rattle.hs_numbering.specs.Names as names;

use hs_pure::Var;

/// Whether a byte may stand between words.
pub fn is_blank(byte: u8) -> bool
    ensures { result ≡ bytes.is_blank byte }
{
    byte == b' ' || byte == b'\t' || byte == b'\r' || byte == b'\n'
}

fn is_in_name(byte: u8) -> bool
    ensures { result ≡ bytes.is_in_name byte }
{
    byte.is_ascii_alphanumeric() || byte == b'_'
}

/// The text behind the blanks at its front.
#[tactic(auto, using(crate::proofs::Short::blanks_within))]
pub fn past_blanks(text: &[u8]) -> &[u8]
    ensures exact { result.now ≡ spec.past_blanks text.now }
    ensures within { length result.now ≤ length text.now }
{
    first_word(text)
}

fn first_word(text: &[u8]) -> &[u8]
    ensures { result.now ≡ spec.past_blanks text.now }
{
    let mut rest = text;
    while let [first, later @ ..] = rest {
        if !is_blank(*first) {
            return rest;
        }
        rest = later;
    }
    rest
}

/// How many bytes at the front are of names.
pub fn name_len(text: &[u8]) -> usize
    ensures { result ≡ length (take_while bytes.is_in_name text.now) }
{
    text.iter().take_while(|b| is_in_name(**b)).count()
}

/// How many bytes at the front are digits.
pub fn digits_len(text: &[u8]) -> usize
    ensures { result ≡ length (take_while bytes.is_digit text.now) }
{
    text.iter().take_while(|b| b.is_ascii_digit()).count()
}

fn add_digit(found: Option<u32>, b: u8) -> Option<u32>
    ensures { result ≡ names.add_digit found b }
{
    let Some(number) = found else {
        return None;
    };
    if b < 48 || b > 57 {
        return None;
    }
    let number = u64::from(number) * 10 + u64::from(b - 48);
    if number < 1 << 32 {
        return Some(number as u32);
    }
    None
}

fn decimal(digits: &[u8]) -> Option<u32>
    ensures { result ≡ names.decimal digits.now }
{
    let mut found = Some(0);
    for b in digits {
        found = add_digit(found, *b);
    }
    found
}

/// The number below 2^32 that these digits write without leading zeros.
pub fn plain_number(digits: &[u8]) -> Option<u32>
    ensures { result ≡ spec.plain_number digits.now }
{
    match digits {
        [] => None,
        [48] => Some(0),
        [48, _, ..] => None,
        _ => decimal(digits),
    }
}

fn number_of(digits: &[u8]) -> Option<u32>
    ensures { result ≡ names.number_of digits.now }
{
    match digits.first() {
        None => None,
        Some(b) => { if *b == 48 { None } else { decimal(digits) } }
    }
}

/// The variable that this text is in numbered form.
pub fn numbered_var(name: &[u8]) -> Option<Var>
    ensures { result ≡ names.numbered_var name.now }
{
    if name.is_empty() || name[0] != 118 && name[0] != 86 {
        return None;
    }
    let bag = name[0] == 86;
    match number_of(&name[1..]) {
        Some(number) => Some(Var { number, bag }),
        None => None,
    }
}
