ghost use Rattle.std.specs.Prelude.{◌≡◌};
ghost use Rattle.hs_wf.specs.declared.error.WfError.TheVariants.{Memory};

use hs_pure::{NoMemory, Var};

/// Where definitions are not founded first: the predicate and its case, by number from 1, and what is wrong.
#[derive(Clone, Copy, Debug, PartialEq, Eq)]
pub enum WfError {
    /// A predicate has the root `self`.
    RootPredicate(u32, u32),
    /// The case has an atom, and not exactly one node at `self`.
    NoRoot(u32, u32),
    /// This is the first root that is not reached.
    Unreached(u32, u32, Var),
    Memory,
}

impl From<NoMemory> for WfError {
    ghost from_gives = { λ _ e. e ≡ Memory };

    fn from(_: NoMemory) -> WfError {
        WfError::Memory
    }
}
