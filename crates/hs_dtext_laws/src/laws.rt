//! What holds of every writable derivation.

ghost use Rattle.hs_dtext_laws.specs.Laws.{DerivationsComeBack, NodesComeBack, ProvedComesBack};

/// The line of a writable node is read as that node.
pub fn nodes_come_back()
    ensures { NodesComeBack }
{}

/// The text of a writable derivation is read as that derivation.
pub fn derivations_come_back()
    ensures { DerivationsComeBack }
{}

/// The text of writable nodes and claims is read as these nodes and the claims that are shown, where the cause of an
/// open claim is one line.
pub fn proved_comes_back()
    ensures { ProvedComesBack }
{}
