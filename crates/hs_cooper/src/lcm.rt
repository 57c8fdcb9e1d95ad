//! Least common multiples.

ghost use Rattle.std.specs.Prelude.{◌≡◌, ◌<◌, ◌^◌, SomeIff};
ghost use Rattle.hs_elimination.specs.Lcm.{gcd, lcm};

// The greatest common divisor of two numbers, by Euclid's steps.
fn gcd(mut a: u128, mut b: u128) -> u128
    ensures { result ≡ gcd a b }
{
    'steps: while b != 0 {
        let rest = a % b;
        a = b;
        b = rest;
    }
    a
}

// The least common multiple of two numbers, if it is a number of 127 bits.
pub(crate) fn lcm(a: u128, b: u128) -> Option<u128>
    requires a_positive { 0 < a }
    requires b_positive { 0 < b }
    ensures { SomeIff result (lcm a b < 2 ^ 127) (lcm a b) }
{
    match (a / gcd(a, b)).checked_mul(b) {
        Some(multiple) if multiple < 1 << 127 => Some(multiple),
        _ => None,
    }
}
