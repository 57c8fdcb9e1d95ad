ghost use Rattle.std.specs.Prelude.{◌≡◌};
ghost use Rattle.hs_pure.specs.Rename.{renaming};

/// A variable: of a number, or of a bag. Numbers that name variables of a formula begin at 1.
#[derive(Clone, Copy, Debug, PartialEq, Eq)]
pub struct Var {
    pub number: u32,
    pub bag: bool,
}

// What the pairs put in the place of `v`.
pub(crate) fn renamed(map: &[(Var, Var)], v: Var) -> Var
    ensures { result ≡ renaming map.now v }
{
    for pair in map {
        if pair.0 == v {
            return pair.1;
        }
    }
    v
}
