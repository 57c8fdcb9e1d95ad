ghost use Rattle.std.specs.Prelude.{◌≡◌, ◌+ℤ◌, ◌*ℤ◌, SomeIff, FitsSigned};
ghost use mir.Syntax.{w128};
ghost use Rattle.hs_cooper_forms.specs.Sign.{sign};

/// A factor 1 or -1.
#[derive(Clone, Copy, Debug, PartialEq, Eq)]
pub enum Sign {
    Plus,
    Minus,
}

impl Sign {
    // The sign times `c`, if it fits.
    pub(crate) fn times(self, c: i128) -> Option<i128>
        ensures { SomeIff result (FitsSigned w128 (sign self *ℤ c)) (sign self *ℤ c) }
    {
        match self {
            Sign::Plus => Some(c),
            Sign::Minus => 0i128.checked_sub(c),
        }
    }

    // The sign times `c`, plus `d`, if the sum fits.
    pub(crate) fn times_plus(self, c: i128, d: i128) -> Option<i128>
        ensures { SomeIff result (FitsSigned w128 (sign self *ℤ c +ℤ d)) (sign self *ℤ c +ℤ d) }
    {
        match self {
            Sign::Plus => c.checked_add(d),
            Sign::Minus => d.checked_sub(c),
        }
    }
}
