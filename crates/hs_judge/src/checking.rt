//! A derivation checked against the claims of a source.

ghost use Rattle.std.specs.Prelude.{◌≡◌, ◌<◌, ◌≤◌, ◌^◌, ℕ, length, IfOk};
ghost use Rattle.hs_heap.specs.Sound.{IsSound};
ghost use Rattle.hs_core.specs.Sound.{IsSoundProgram};
ghost use Rattle.hs_check.specs.declared.verdict.Spent.{Spent as HowSpent};
ghost use Rattle.hs_check.specs.declared.verdict.Verdict.TheVariants.{Accepted};
ghost use Rattle.hs_check.specs.Listed.{HasCause, IsListed, AcceptsOrStops};
ghost use Rattle.hs_judge.specs.Listed.{calculus_of, claim_count};

use crate::judge::Listing;
use crate::tables::Tables;
use hs_check::Verdict;
use hs_claims::claims;
use hs_core::Program;
use hs_node::Derivation;
use hs_norm::Resolved;
use hs_pure::NoMemory;
use std::alloc::Global;

/// What is found of a derivation of what a source and its program claim. The definitions and the program are sound,
/// `atoms` is at most 2^30, there is at least one piece, `watch` may be called with any number, and there are fewer than
/// 2^32 nodes.
///
/// `Refused` names the first node that is not right, with the first of its tests that fails. `MissingClaim` names the
/// least claim without its conclusion where all nodes are right. `Stopped` names a node of which only the question is
/// left, and that passes a bound: its approximation takes more than 2^30 new numbers, a stage of its plain decision has
/// more than `atoms` atoms, or a number of that passes 128 bits. `NoMemory` comes where there is none. The nodes are
/// judged in one piece, and `watch` is not called.
#[tactic(auto, using(crate::proofs::Placing::accepted))]
pub fn check<'x, W: Fn(u32) + Sync>(
    alloc: Global,
    resolved: &'x Resolved,
    program: &'x Program,
    derivation: &Derivation,
    atoms: u64,
    pieces: u32,
    watch: &W,
) -> Result<Verdict, NoMemory>
    requires sound { IsSound resolved.now.defs }
    requires program { IsSoundProgram resolved.now.defs program.now }
    requires small { atoms ≤ 2 ^ 30 }
    requires pieces { 1 ≤ pieces }
    requires watch { W.IsAlwaysCallable watch.now }
    requires few { length derivation.now.nodes < 2 ^ 32 }
    ensures cause { IfOk result (HasCause (calculus_of resolved.now program.now atoms) (claim_count resolved.now program.now) derivation.now.nodes derivation.now.claims) }
    // What lists every claim is accepted, unless a question passes a bound.
    ensures listed { IsListed (calculus_of resolved.now program.now atoms) (claim_count resolved.now program.now) derivation.now.nodes derivation.now.claims → IfOk result AcceptsOrStops }
    ensures complete { IsListed (calculus_of resolved.now program.now atoms) (claim_count resolved.now program.now) derivation.now.nodes derivation.now.claims → ((i : ℕ) (s : HowSpent) → ¬ ((calculus_of resolved.now program.now atoms).is_spent derivation.now.nodes i s)) → IfOk result (λ v. v ≡ Accepted) }
{
    let claims = claims(alloc, resolved, program)?;
    let listing = Listing {
        tables: Tables {
            defs: &resolved.defs,
            program,
            atoms,
        },
        claims: claims.as_slice(),
    };
    let nodes = derivation.nodes.as_slice();
    let lines = derivation.claims.as_slice();
    Ok(hs_check::check(&listing, alloc, nodes, lines)?)
}
