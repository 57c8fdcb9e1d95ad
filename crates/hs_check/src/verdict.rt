/// The test that a node fails, in the order in which they are made.
#[derive(Clone, Copy, Debug, PartialEq, Eq)]
pub enum Reason {
    Shape,
    Rule,
    Premise,
    Residue,
    Question,
}

/// The bound that a node's question passes.
#[derive(Clone, Copy, Debug, PartialEq, Eq)]
pub enum Spent {
    Numbers,
    Atoms,
    Wide,
}

/// What is found of one node.
#[derive(Clone, Copy, Debug, PartialEq, Eq)]
pub enum NodeAnswer {
    Right,
    Wrong(Reason),
    Numbers,
    Atoms,
    Wide,
}

/// What is found of a list of nodes. Nodes and claims are numbered from 1.
#[derive(Clone, Copy, Debug, PartialEq, Eq)]
pub enum Verdict {
    /// Every node is right, and every claim has its conclusion.
    Accepted,
    /// The first node that is not right fails this test.
    Refused(u32, Reason),
    /// The nodes are right, and this is the least claim without its conclusion.
    MissingClaim(u32),
    /// A question of this node passes a bound, and all nodes before it are right.
    Stopped(u32, Spent),
}
