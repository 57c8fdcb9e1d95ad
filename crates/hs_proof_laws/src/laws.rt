//! What written derivations are. Each function states a law; its calls bring those of the layers below.

ghost use Rattle.hs_proof_laws.specs.Laws.{MovedNodesAreRight, ProvedTextsAreRight};

use hs_proof_nodes::proofs_are_right_nodes;

/// Right nodes, moved behind other right nodes with the numbers of their premises, stay right.
pub fn moved_nodes_are_right()
    ensures { MovedNodesAreRight }
{}

/// What is written of a source and its program is right: its nodes are, each line that is not open names a node which
/// concludes its claim, and where no line is open every claim is listed.
pub fn proved_texts_are_right()
    ensures { ProvedTextsAreRight }
{
    proofs_are_right_nodes();
}
