//! What nodes conclude.

ghost use Rattle.std.specs.Prelude.{◌↔◌, IsTrue, IsSomeAnd};
ghost use Rattle.hs_judge.specs.Named.{item_at};
ghost use Rattle.hs_judge.specs.Listed.{Concludes};

use hs_node::{Claim, Judgement, same_at};

fn is_conclusion(claim: &Claim, judgement: &Judgement) -> bool
    ensures { IsTrue result ↔ Concludes claim.now judgement.now }
{
    match (claim, judgement) {
        (Claim::Invariant(a), Judgement::Shown(b)) => a == b,
        (Claim::Entails(goal), Judgement::Entails(g, _)) => goal.same(g),
        (Claim::Pair(a), Judgement::Runs(b)) => same_at(a, b),
        _ => false,
    }
}

/// Whether there is a claim of this number, from 1, and the judgement is what it claims. It takes no memory.
pub fn concludes(claims: &[Claim], number: u32, judgement: &Judgement) -> bool
    ensures { IsTrue result ↔ IsSomeAnd (item_at claims.now number) (λ c. Concludes c judgement.now) }
{
    if number == 0 {
        return false;
    }
    match claims.get(number as usize - 1) {
        Some(claim) => is_conclusion(claim, judgement),
        None => false,
    }
}
