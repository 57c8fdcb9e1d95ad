//! The line of `check`.

ghost use Rattle.std.specs.Prelude.{◌≡◌, ◌≤◌, ◌^◌, ◌∷◌, [], length, Ok, IfErr, IfOk};
ghost use Rattle.hs_core.specs.Sound.{IsSoundProgram};
ghost use Rattle.hs_dtext.specs.Lines.{derivation_of};
ghost use Rattle.hs_heap.specs.Sound.{IsSound};
ghost use Rattle.hs_judge.specs.Listed.{claim_count};
ghost use Rattle.hs_proof_lines.specs.Checked as spec;
ghost use Rattle.hs_proof_lines.specs.Checked.{HasCheckCause, IsCheckReport};

use crate::error::CheckError;
use crate::numbers::number_of;
use hs_check::{Reason, Spent, Verdict};
use hs_claims::claims;
use hs_core::Program;
use hs_dtext::DTextError;
use hs_dtext_read::read_derivation;
use hs_judge::check;
use hs_node::Derivation;
use hs_norm::Resolved;
use hs_print::{Line, Refusal, Word};
use hs_pure::NoMemory;
use sqlite_items::Items;
use std::alloc::Global;

// The derivation that a text is, or the refusal of its first fault.
fn derivation(alloc: Global, resolved: &Resolved, bytes: &[u8]) -> Result<Derivation, CheckError>
    requires short { length bytes.now ≤ 2 ^ 26 }
    ensures read { IfOk result (λ d. derivation_of resolved.now.defs bytes.now ≡ Ok d) }
    ensures cause { IfErr result (HasCheckCause resolved.now bytes.now) }
{
    match read_derivation(alloc, &resolved.defs, bytes) {
        Ok(derivation) => Ok(derivation),
        Err(DTextError::Version(v)) => Err(CheckError::Refused(Refusal::ProofVersion(v))),
        Err(DTextError::Forward(n)) => Err(CheckError::Refused(Refusal::ProofForward(n))),
        Err(DTextError::Line(n, _)) => Err(CheckError::Refused(Refusal::ProofLine(n))),
        Err(DTextError::Memory) => Err(CheckError::Memory),
    }
}

fn test_word(reason: Reason) -> Word
    ensures { result ≡ spec.test_word reason }
{
    match reason {
        Reason::Shape => Word::Shape,
        Reason::Rule => Word::Rule,
        Reason::Premise => Word::Premise,
        Reason::Residue => Word::Residue,
        Reason::Question => Word::Question,
    }
}

fn bound_word(spent: Spent) -> Word
    ensures { result ≡ spec.bound_word spent }
{
    match spent {
        Spent::Numbers => Word::NumbersSpent,
        Spent::Atoms => Word::AtomsSpent,
        Spent::Wide => Word::PastBits,
    }
}

// The line of a verdict on so many nodes and claims.
fn verdict_line(nodes: u32, claims: u32, verdict: Verdict) -> Line
    ensures { result ≡ spec.verdict_line nodes claims verdict }
{
    match verdict {
        Verdict::Accepted => Line::ProofAccepted(nodes, claims),
        Verdict::Refused(k, reason) => Line::ProofRefused(k, test_word(reason)),
        Verdict::MissingClaim(k) => Line::ProofMissing(k),
        Verdict::Stopped(k, spent) => Line::ProofStopped(k, bound_word(spent)),
    }
}

// How many claims there are.
fn count(alloc: Global, resolved: &Resolved, program: &Program) -> Result<u32, NoMemory>
    ensures { IfOk result (λ n. n ≡ claim_count resolved.now program.now) }
{
    number_of(claims(alloc, resolved, program)?.len())
}

fn verdict_lines(
    alloc: Global,
    nodes: u32,
    claims: u32,
    verdict: Verdict,
) -> Result<Items<Line>, NoMemory>
    ensures { IfOk result (λ lines. lines ≡ spec.verdict_line nodes claims verdict ∷ []) }
{
    let line = verdict_line(nodes, claims, verdict);
    Ok(Items::from_vec(vec![in alloc; line]?))
}

/// The line of `check`: the verdict on the derivation that the text is, against what the source and its program claim. The
/// definitions and the program are sound, `atoms` is at most 2^30, there is at least one piece, `watch` may be called with
/// any number, and the text has at most 2^26 bytes.
///
/// `Refused` has the first fault of a text that is no derivation. `Memory` comes where there is none. The verdict stops
/// where a question passes a bound, as `hs_judge::check` says; a derivation that lists every claim is accepted otherwise.
pub fn check_lines<W: Fn(u32) + Sync>(
    alloc: Global,
    resolved: &Resolved,
    program: &Program,
    bytes: &[u8],
    atoms: u64,
    pieces: u32,
    watch: &W,
) -> Result<Items<Line>, CheckError>
    requires sound { IsSound resolved.now.defs }
    requires program { IsSoundProgram resolved.now.defs program.now }
    requires small { atoms ≤ 2 ^ 30 }
    requires pieces { 1 ≤ pieces }
    requires watch { W.IsAlwaysCallable watch.now }
    requires short { length bytes.now ≤ 2 ^ 26 }
    ensures lines { IfOk result (IsCheckReport resolved.now program.now atoms bytes.now) }
    ensures cause { IfErr result (HasCheckCause resolved.now bytes.now) }
{
    let derivation = derivation(alloc, resolved, bytes)?;
    let nodes = number_of(derivation.nodes.len())?;
    let claims = count(alloc, resolved, program)?;
    let verdict = check(alloc, resolved, program, &derivation, atoms, pieces, watch)?;
    Ok(verdict_lines(alloc, nodes, claims, verdict)?)
}
