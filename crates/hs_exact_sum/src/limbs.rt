//! Numbers of more than 128 bits.

ghost use Rattle.std.specs.Prelude.{◌≡◌, pos, ◌^◌, ◌+◌, ◌≤◌, ◌+ℤ◌, ◌*ℤ◌, unsigned_abs};
ghost use Rattle.hs_exact_sum.specs.Limbs.{joined, number_of, IsExact};

const BASE: i128 = 1 << 64;

const HALF: i128 = 1 << 63;

// A number in limbs of 64 bits, from the lowest on. The rest has the sign.
#[derive(Clone, Copy)]
pub(crate) struct Limbs {
    first: u64,
    second: u64,
    third: u64,
    rest: i128,
}

// A number cut after its lowest 64 bits.
#[derive(Clone, Copy)]
struct Parts {
    high: i128,
    low: u64,
}

fn cut(x: i128) -> Parts
    ensures { x ≡ joined result.high result.low }
{
    Parts {
        high: x.div_euclid(BASE),
        low: x.rem_euclid(BASE) as u64,
    }
}

// A number as the sum of `low` and 2^64 times `high`, each of which is near 0.
#[derive(Clone, Copy)]
struct Halves {
    high: i128,
    low: i128,
}

fn halved(x: i128) -> Halves
    ensures sum { x ≡ result.high *ℤ pos (2 ^ 64) +ℤ result.low }
    ensures high { unsigned_abs result.high ≤ 2 ^ 63 }
    ensures low { unsigned_abs result.low ≤ 2 ^ 63 }
{
    let parts = cut(x);
    let low = i128::from(parts.low);
    if low < HALF {
        Halves {
            high: parts.high,
            low,
        }
    } else {
        Halves {
            high: parts.high + 1,
            low: low - BASE,
        }
    }
}

fn product(a: i128, b: i128) -> i128
    requires first { unsigned_abs a ≤ 2 ^ 63 }
    requires second { unsigned_abs b ≤ 2 ^ 63 }
    ensures value { result ≡ a *ℤ b }
    ensures near { unsigned_abs result ≤ 2 ^ 126 }
{
    a * b
}

// The digit and a product, cut.
fn add_to(digit: i128, a: i128, b: i128) -> Parts
    requires digit { unsigned_abs digit ≤ 2 ^ 65 }
    requires first { unsigned_abs a ≤ 2 ^ 63 }
    requires second { unsigned_abs b ≤ 2 ^ 63 }
    ensures sum { digit +ℤ a *ℤ b ≡ joined result.high result.low }
    ensures near { unsigned_abs result.high ≤ 2 ^ 62 + 3 }
{
    cut(digit + product(a, b))
}

// 2^64 times `high`, and `low`.
fn join(high: i128, low: u64) -> Option<i128>
    ensures { IsExact result (joined high low) }
{
    if -HALF <= high && high < HALF {
        Some(high * BASE + i128::from(low))
    } else {
        None
    }
}

impl Limbs {
    pub(crate) fn zero() -> Limbs
        ensures value { number_of result ≡ pos 0 }
        ensures near { unsigned_abs result.rest ≡ 0 }
    {
        Limbs {
            first: 0,
            second: 0,
            third: 0,
            rest: 0,
        }
    }

    // The number and `c` times `x`.
    pub(crate) fn add_product(self, c: i128, x: i128) -> Limbs
        requires { unsigned_abs self.rest ≤ 2 ^ 126 + 2 ^ 66 }
        ensures value { number_of result ≡ number_of self +ℤ c *ℤ x }
        ensures near { unsigned_abs result.rest ≤ unsigned_abs self.rest + (2 ^ 62 + 4) }
    {
        let c = halved(c);
        let x = halved(x);
        let first = add_to(i128::from(self.first), c.low, x.low);
        let cross = add_to(i128::from(self.second) + first.high, c.high, x.low);
        let second = add_to(i128::from(cross.low), c.low, x.high);
        let upper = i128::from(self.third) + cross.high + second.high;
        let third = add_to(upper, c.high, x.high);
        Limbs {
            first: first.low,
            second: second.low,
            third: third.low,
            rest: self.rest + third.high,
        }
    }

    // The number, or none exactly where it has more than 128 bits.
    pub(crate) fn total(self) -> Option<i128>
        ensures { IsExact result (number_of self) }
    {
        let upper = join(self.rest, self.third)?;
        let lower = join(upper, self.second)?;
        join(lower, self.first)
    }
}
