ghost use Rattle.std.specs.Prelude.{◌<◌, ◌^◌, ◌↔◌, length, IfOk, IsTrue};
ghost use Rattle.hs_check.specs.Listed.{AreRight, Claims, IsClaimed, IsListed, HasCause, AcceptsOrStops};

use crate::judge::Judge;
use crate::verdict::{NodeAnswer, Reason, Spent, Verdict};
use std::alloc::{AllocError, Global};

// Whether the line names a node that concludes the claim.
fn claims<J: Judge>(judge: &J, nodes: &[J::Node], line: (u32, u32), claim: u32) -> bool
    ensures { IsTrue result ↔ Claims (J.calculus judge.now) nodes.now claim line }
{
    if line.0 != claim || line.1 == 0 {
        return false;
    }
    match nodes.get(line.1 as usize - 1) {
        Some(node) => judge.concludes(claim, node),
        None => false,
    }
}

// Whether some line names a node that concludes the claim.
fn is_claimed<J: Judge>(judge: &J, nodes: &[J::Node], lines: &[(u32, u32)], claim: u32) -> bool
    ensures { IsTrue result ↔ IsClaimed (J.calculus judge.now) nodes.now lines.now claim }
{
    lines.iter().any(|line| claims(judge, nodes, *line, claim))
}

/// The first node that is not right, or the least claim without a line that names a node which concludes it, or
/// `Accepted`. Each line has the number of a claim and that of a node. There are fewer than 2^32 nodes.
pub fn check<J: Judge>(
    judge: &J,
    alloc: Global,
    nodes: &[J::Node],
    lines: &[(u32, u32)],
) -> Result<Verdict, AllocError>
    requires few { length nodes.now < 2 ^ 32 }
    ensures cause { IfOk result (HasCause (J.calculus judge.now) (J.claims judge.now) nodes.now lines.now) }
    ensures listed { IsListed (J.calculus judge.now) (J.claims judge.now) nodes.now lines.now → IfOk result AcceptsOrStops }
{
    for i in 0..nodes.len() {
        let number = (i + 1) as u32;
        match judge.judge(alloc, nodes, i)? {
            NodeAnswer::Right => {}
            NodeAnswer::Wrong(reason) => return Ok(Verdict::Refused(number, reason)),
            NodeAnswer::Numbers => return Ok(Verdict::Stopped(number, Spent::Numbers)),
            NodeAnswer::Atoms => return Ok(Verdict::Stopped(number, Spent::Atoms)),
            NodeAnswer::Wide => return Ok(Verdict::Stopped(number, Spent::Wide)),
        }
    }
    for k in 0..judge.count() {
        if !is_claimed(judge, nodes, lines, k + 1) {
            return Ok(Verdict::MissingClaim(k + 1));
        }
    }
    Ok(Verdict::Accepted)
}
