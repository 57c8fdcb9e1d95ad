//! The jobs.

use hs_text::Text;

/// The limits of a job.
#[derive(Clone, Copy, Debug, PartialEq, Eq)]
pub struct Options {
    /// The depth to which a derivation may unfold, 0 to 64.
    pub rank: u32,
    /// The goals that a search may open, 1 to 200000.
    pub goals: u64,
    /// The atoms that a formula may have, 1 to 2000000.
    pub atoms: u64,
    /// The level of the pure approximation of a predicate, 0 to 3.
    pub level: u32,
    /// The residues that are kept for a goal, 1 to 16.
    pub residues: u32,
    /// The pieces that a derivation is cut into, 1 to 64.
    pub pieces: u32,
    /// The steps that a run may take, 0 to 1000000.
    pub steps: u64,
}

#[derive(Debug, Drop)]
pub enum Job {
    /// To prove the entailments of the file of this name.
    Sleek(Text, Options),
    /// To verify the methods of the file of this name.
    Hip(Text, Options),
    /// To write a derivation of the claims of the file of this name.
    Prove(Text, Options),
    /// To check a derivation: the name of the source's file, the name of the derivation's file.
    Check(Text, Text, Options),
    /// To print the core program of the file of this name.
    Core(Text),
    /// To run a method of a file on a heap: the file's name, the method's name, the name of the file of the heap.
    Run(Text, Text, Text, Options),
}
