//! Why a source has no normal form.

use hs_text::Text;

/// Of what a source may have too many.
#[derive(Clone, Copy, Debug, PartialEq, Eq)]
pub enum Limit {
    Nodes,
    Fields,
    Preds,
    Params,
    Cases,
    Atoms,
    Entailments,
    Methods,
    Pairs,
    Vars,
    Lemmas,
}

/// What is wrong, in the order in which it is answered at one place.
#[derive(Debug, Drop)]
pub enum Problem {
    /// Nothing declares the name where it is used.
    Unknown(Text),
    /// The name is declared a second time.
    Twice(Text),
    /// A bag where a number belongs, or a number where a bag belongs.
    Kind,
    /// The number of arguments is wrong.
    Arity,
    /// This thing is one too many.
    TooMany(Limit),
    /// What stands there has no such form.
    Shape,
}

/// What is wrong, and the offset of the token where it is.
#[derive(Debug, Drop)]
pub struct Fault {
    pub at: u32,
    pub problem: Problem,
}
