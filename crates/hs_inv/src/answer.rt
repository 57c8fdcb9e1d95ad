ghost use Rattle.std.specs.Prelude.{◌≡◌};
ghost use Rattle.hs_inv.specs.Answer as spec;

use hs_decide::Answer;
use hs_pure::Valuation;

/// What is answered of an invariant.
#[derive(Debug, Drop)]
pub enum InvAnswer {
    /// It follows from the body.
    Shown,
    /// Values that make the approximation of the body true and the invariant false. A variable that is not named
    /// is 0.
    Fails(Valuation),
    /// A stage of the plain decision has more atoms than were allowed.
    Atoms,
    /// A number of the plain decision passes 128 bits.
    Wide,
}

// The answer of the question whether an invariant follows.
pub(crate) fn inv_answer(answer: Answer) -> InvAnswer
    ensures { result ≡ spec.inv_answer answer }
{
    match answer {
        Answer::Yes => InvAnswer::Shown,
        Answer::No(v) => InvAnswer::Fails(v),
        Answer::Atoms => InvAnswer::Atoms,
        Answer::Wide => InvAnswer::Wide,
    }
}
