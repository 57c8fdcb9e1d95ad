//! What holds of every text. The functions do nothing: each contract states a law.

ghost use Rattle.hs_lex.specs.Laws.{FaultsAreUnique, TextsHaveAnswers, TokensAreUnique, TokensExcludeFaults};

/// A text has at most one list of tokens.
#[tactic(auto, using(crate::proofs::Exact::unique))]
pub fn tokens_are_unique()
    ensures { TokensAreUnique }
{}

/// A text that has tokens has no fault.
#[tactic(auto, using(crate::proofs::Exact::exclusive))]
pub fn tokens_exclude_faults()
    ensures { TokensExcludeFaults }
{}

/// A text has at most one first fault.
#[tactic(auto, using(crate::proofs::Exact::first))]
pub fn faults_are_unique()
    ensures { FaultsAreUnique }
{}

/// Each text has tokens or a fault.
pub fn texts_have_answers()
    ensures { TextsHaveAnswers }
{}
