//! The lines of a report.

use crate::refusal::Refusal;
use crate::why::{Tried, Why};
use crate::word::Word;
use hs_text::Text;
use sqlite_items::Items;

/// A line of a report, with what it prints from the left: numbers, and a text for each name, formula, valuation
/// and longer text. Claims, pairs, nodes and cases are numbered from 1, instructions from 0.
#[derive(Debug, Drop)]
pub enum Line {
    /// A predicate whose invariant is shown.
    Shown(Text),
    /// A predicate, and a valuation at which its invariant fails.
    Fails(Text, Text),
    /// A predicate, and why nothing is known of its invariant.
    InvStopped(Text, Word),
    /// An entailment, and its residues.
    Valid(u32, Items<Text>),
    Unknown(u32, Why),
    /// A method and its pair.
    Accepted(Text, u32),
    /// The same, the instruction that is not proved, and what was tried there.
    Rejected(Text, u32, u32, Items<Tried>),
    /// A method, its pair, and the first predicate whose invariant is not shown.
    PairInvariant(Text, u32, Text),
    /// How many predicates are shown and how many there are, how many entailments are valid and how many there are.
    SleekSummary(u32, u32, u32, u32),
    /// The same with pairs.
    HipSummary(u32, u32, u32, u32),
    /// How many nodes a derivation has, and how many claims the source has.
    ProofAccepted(u32, u32),
    /// The first node that is not right, and the test that it fails.
    ProofRefused(u32, Word),
    /// The first claim without its conclusion.
    ProofMissing(u32),
    /// The first node that is not judged, and the bound that is spent.
    ProofStopped(u32, Word),
    /// A derivation, and whether it has a claim that is not proved.
    DerivationText(Text, bool),
    CoreText(Text),
    SourceText(Text),
    /// The result, the steps that were done, and the heap.
    Returned(Option<i128>, u64, Text),
    /// The steps that were done.
    Running(u64),
    /// The method, the instruction and the location that has no fitting node.
    Fault(Text, u32, i128),
    /// The method and the instruction whose numbers pass 128 bits.
    RunWide(Text, u32),
    RefusedWords,
    /// The name of a file that could not be had.
    FileFault(Text),
    Refused(Refusal),
}
