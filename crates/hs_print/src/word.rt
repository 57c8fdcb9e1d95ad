//! Single words of a report.

ghost use Rattle.std.specs.Prelude.{◌≡◌};
ghost use Rattle.hs_print.specs.Line.{word_text};

/// A cause of one word: a bound that is spent, or the test that a node of a derivation fails.
#[derive(Clone, Copy, Debug, PartialEq, Eq)]
pub enum Word {
    NumbersSpent,
    AtomsSpent,
    PastBits,
    Shape,
    Rule,
    Premise,
    Residue,
    Question,
}

impl Word {
    // Its text.
    pub fn as_str(self) -> &'static str
        ensures { result.now ≡ word_text self }
    {
        match self {
            Word::NumbersSpent => "numbers spent",
            Word::AtomsSpent => "atoms spent",
            Word::PastBits => "past 128 bits",
            Word::Shape => "shape",
            Word::Rule => "rule",
            Word::Premise => "premise",
            Word::Residue => "residue",
            Word::Question => "question",
        }
    }
}
