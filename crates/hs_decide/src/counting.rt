//! Questions by their plain reduction.

ghost use Rattle.std.specs.Prelude.{◌≡◌, ◌≤◌, ◌<◌, ◌^◌, IfOk, IsErrOf, IsTrue};
ghost use Rattle.hs_pure.specs.Assertion.{assertion_of};
ghost use Rattle.hs_pure.specs.Occurs.{is_bags_plain, top_of};
ghost use Rattle.hs_pure.specs.Sums.{IsOrdered};
ghost use Rattle.hs_bag.specs.declared.stop.Stop.TheVariants.{Atoms, Wide};
ghost use Rattle.hs_decide.specs.Size.{size_of};
ghost use Rattle.hs_decide.specs.Span.{SpanIsWide};
ghost use Rattle.hs_decide.specs.Answering.{IsAnswer};
ghost use Rattle.hs_decide.specs.Reduced.{IsReducedQuestion};

use crate::Answer;
use crate::plainly::by_counts;
use hs_bag::{Stop, plain};
use hs_counts::Reduced;
use hs_pure::{NoMemory, Pure};
use hs_reduction::{bagless_has_no_bags, bags_plain_is_of_assertion};
use sqlite_items::Boxed;
use std::alloc::Global;

fn boxed(alloc: Global, reduced: Reduced) -> Result<Boxed<Reduced>, NoMemory>
    ensures { IfOk result (λ r. r ≡ reduced) }
{
    Ok(Boxed::new(alloc, reduced)?)
}

/// The plain reduction of a question. It is made only where it has at most `atoms` comparisons and no number of it
/// passes 128 bits.
pub(crate) fn reduction(alloc: Global, question: &Pure, atoms: u64) -> Result<Boxed<Reduced>, Stop>
    requires plain { IsTrue (is_bags_plain question.now) }
    requires ordered { IsOrdered question.now }
    requires low { top_of question.now < 2 ^ 31 }
    requires small { atoms ≤ 2 ^ 30 }
    ensures reduced { IfOk result (IsReducedQuestion question.now) }
    ensures atoms { IsErrOf result Atoms → atoms < size_of (assertion_of question.now) }
    ensures wide { IsErrOf result Wide → SpanIsWide (assertion_of question.now) }
{
    bags_plain_is_of_assertion();
    bagless_has_no_bags();
    let reduced = plain(alloc, question, question.top() + 1, atoms)?;
    Ok(boxed(alloc, reduced)?)
}

/// The answer to the question whether a formula has no solution, by its plain reduction.
pub(crate) fn by_reduction(alloc: Global, question: &Pure, atoms: u64) -> Result<Answer, NoMemory>
    requires plain { IsTrue (is_bags_plain question.now) }
    requires ordered { IsOrdered question.now }
    requires low { top_of question.now < 2 ^ 31 }
    requires small { atoms ≤ 2 ^ 30 }
    ensures { IfOk result (IsAnswer atoms question.now) }
{
    match reduction(alloc, question, atoms) {
        Ok(reduced) => by_counts(alloc, question, reduced.get(), atoms),
        Err(Stop::Atoms) => Ok(Answer::Atoms),
        Err(Stop::Wide) => Ok(Answer::Wide),
        Err(Stop::Memory) => Err(NoMemory),
    }
}
