//! What holds of the nodes of a proof. The function does nothing: its contract states a law.

ghost use Rattle.hs_proof_nodes.specs.Laws.{ProofsAreRightNodes};

/// Behind right nodes the nodes of a proof are right, and the last concludes its goal with its residue.
pub fn proofs_are_right_nodes()
    ensures { ProofsAreRightNodes }
{}
