//! The fault that is answered.

ghost use Rattle.std.specs.Prelude.{◌≡◌};
ghost use Rattle.std.specs.Option.{option_copied};
ghost use Rattle.hs_numbering.specs.Least as spec;

use crate::fault::{Fault, Problem};

fn rank(problem: &Problem) -> u32
    ensures { result ≡ spec.rank problem.now }
{
    match problem {
        Problem::Unknown(_) => 0,
        Problem::Twice(_) => 1,
        Problem::Kind => 2,
        Problem::Arity => 3,
        Problem::TooMany(_) => 4,
        Problem::Shape => 5,
    }
}

fn is_before(fault: &Fault, other: &Fault) -> bool
    ensures { result ≡ spec.is_before fault.now other.now }
{
    fault.at < other.at || fault.at == other.at && rank(&fault.problem) < rank(&other.problem)
}

/// The first fault in the order of the text. Of several at one place it is the one whose problem is listed
/// first, and of equals the one that was met first.
pub fn least(faults: &[Fault]) -> Option<&Fault>
    ensures { option_copied result ≡ spec.least faults.now }
{
    let mut found: Option<&Fault> = None;
    for fault in faults {
        let is_first = match found {
            Some(other) => is_before(fault, other),
            None => true,
        };
        if is_first {
            found = Some(fault);
        }
    }
    found
}
