//! Answers of one node.

ghost use Rattle.std.specs.Prelude.{◌≡◌, ◌↔◌, IsTrue, IsSome};
ghost use Rattle.hs_heap.specs.Meaning.{pred_at};
ghost use Rattle.hs_judge.specs.Told as spec;

use hs_check::{NodeAnswer, Reason};
use hs_heap::Defs;
use hs_inv::InvAnswer;

/// What is answered where a premise is missing, by the answer without it: a test before that of the premises stands.
pub fn without_premise(answer: NodeAnswer) -> NodeAnswer
    ensures { result ≡ spec.without_premise answer }
{
    match answer {
        NodeAnswer::Wrong(Reason::Shape) => NodeAnswer::Wrong(Reason::Shape),
        NodeAnswer::Wrong(Reason::Rule) => NodeAnswer::Wrong(Reason::Rule),
        _ => NodeAnswer::Wrong(Reason::Premise),
    }
}

/// What is answered where the rule is of another kind than the judgement, by whether that has its shape.
pub fn of_other_kind(has_shape: bool) -> NodeAnswer
    ensures { result ≡ spec.of_other_kind has_shape }
{
    if has_shape {
        NodeAnswer::Wrong(Reason::Rule)
    } else {
        NodeAnswer::Wrong(Reason::Shape)
    }
}

/// An answer to the question of an invariant, as one of the node.
pub fn of_invariant(answer: &InvAnswer) -> NodeAnswer
    ensures { result ≡ spec.of_invariant answer.now }
{
    match answer {
        InvAnswer::Shown => NodeAnswer::Right,
        InvAnswer::Fails(_) => NodeAnswer::Wrong(Reason::Question),
        InvAnswer::Atoms => NodeAnswer::Atoms,
        InvAnswer::Wide => NodeAnswer::Wide,
    }
}

/// Whether there is a predicate of this number from 1.
pub fn has_pred(defs: &Defs, pred: u32) -> bool
    ensures { IsTrue result ↔ IsSome (pred_at defs.now pred) }
{
    pred != 0 && defs.preds.get(pred as usize - 1).is_some()
}
