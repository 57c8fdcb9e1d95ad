ghost use Rattle.std.specs.Prelude.{◌≡◌, ◌<◌, ◌↔◌, ℕ, length, IfOk, IsTrue};
ghost use Rattle.hs_check.specs.Listed.{Calculus, IsAnswer};

use crate::verdict::NodeAnswer;
use std::alloc::{AllocError, Global};

/// Who tells what a right node is, and which claims a node concludes. Claims are numbered from 1.
pub trait Judge {
    type Node: Drop;

    /// What right nodes and conclusions are.
    ghost calculus: { Self → Calculus Self.Node };

    /// How many claims there are.
    ghost claims: { Self → ℕ };

    /// What is found of a node of the list, by its place from 0.
    fn judge(&self, alloc: Global, nodes: &[Self::Node], i: usize) -> Result<NodeAnswer, AllocError>
        requires { i < length nodes.now }
        ensures { IfOk result (IsAnswer (calculus self.now) nodes.now i) };

    /// How many claims there are.
    fn count(&self) -> u32
        ensures { result ≡ claims self.now };

    /// Whether the node concludes the claim.
    fn concludes(&self, claim: u32, node: &Self::Node) -> bool
        ensures { IsTrue result ↔ (calculus self.now).concludes claim node.now };
}
