//! Causes.

ghost use Rattle.std.specs.Prelude.{◌≡◌, ◌++◌, OnOk};
ghost use Rattle.std.specs.String.{string_bytes};
ghost use Rattle.hs_print.specs.Line.{ended, why_text, tried_text};

use hs_text::Text;
use std::alloc::AllocError;

/// Why a claim is not proved.
#[derive(Debug, Drop)]
pub enum Why {
    /// The search has more goals than this.
    Goals(u64),
    /// Its numbers of variables are spent.
    Numbers,
    /// A question has too many atoms; the text of its right side.
    Atoms(Text),
    /// A question passes 128 bits; the text of its right side.
    Wide(Text),
    /// There is no derivation with this many folds and unfolds.
    Rank(u32),
    /// The right side of a question, and a valuation at which the left side is true and it is not.
    NotImplied(Text, Text),
    /// An atom of the consequent for which no rule is left.
    NoChoice(Text),
    /// The root of an atom of the consequent, which nothing gives a value.
    OpenRoot(Text),
    /// A variable beside a bag literal, which nothing gives a value.
    OpenBag(Text),
    /// The first predicate whose invariant is not shown.
    Invariant(Text),
}

/// A cause, with what was tried.
#[derive(Debug, Drop)]
pub enum Tried {
    /// A call by the pair of this number.
    Pair(u32, Why),
    Get(Why),
    Set(Why),
    Return(Why),
    /// There are more states than this.
    States(u64),
    Numbers,
}

/// Adds the text of a cause.
pub fn push_why(out: &mut String, why: &Why) -> Result<(), AllocError>
    ensures { OnOk result (string_bytes out.new ≡ string_bytes out.old ++ why_text why.now) }
{
    match why {
        Why::Goals(n) => write!(out, "more than {n} goals"),
        Why::Numbers => write!(out, "numbers spent"),
        Why::Atoms(right) => write!(out, "atoms spent on: {right}"),
        Why::Wide(right) => write!(out, "past 128 bits on: {right}"),
        Why::Rank(n) => write!(out, "rank {n} spent"),
        Why::NotImplied(right, valuation) => write!(out, "not implied: {right} at {valuation}"),
        Why::NoChoice(atom) => write!(out, "no choice for {atom}"),
        Why::OpenRoot(name) => write!(out, "open root {name}"),
        Why::OpenBag(name) => write!(out, "open bag {name}"),
        Why::Invariant(pred) => write!(out, "invariant of {pred}"),
    }
}

// Adds a word, a cause and the end of the line.
fn push_named_why(out: &mut String, name: &str, why: &Why) -> Result<(), AllocError>
    ensures { OnOk result (string_bytes out.new ≡ string_bytes out.old ++ (name.now ++ ended (why_text why.now))) }
{
    write!(out, "{name}")?;
    push_why(out, why)?;
    write!(out, "\n")
}

// Adds the line of a cause with what was tried.
pub fn push_tried(out: &mut String, tried: &Tried) -> Result<(), AllocError>
    ensures { OnOk result (string_bytes out.new ≡ string_bytes out.old ++ tried_text tried.now) }
{
    match tried {
        Tried::Pair(number, why) => {
            write!(out, "  pair {number}")?;
            push_named_why(out, ": ", why)
        }
        Tried::Get(why) => push_named_why(out, "  get: ", why),
        Tried::Set(why) => push_named_why(out, "  set: ", why),
        Tried::Return(why) => push_named_why(out, "  return: ", why),
        Tried::States(n) => write!(out, "  states: more than {n} states\n"),
        Tried::Numbers => write!(out, "  numbers: numbers spent\n"),
    }
}
