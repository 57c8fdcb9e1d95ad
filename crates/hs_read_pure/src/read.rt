//! A tree of all the tokens.

ghost use Rattle.std.specs.Prelude.{◌≡◌, ◌<◌, ◌^◌, length, IfOk};
ghost use Rattle.std.specs.List.{AllByRecursion};
ghost use Rattle.hs_lex.specs.Tokens.{IsSpan};
ghost use Rattle.hs_words.specs.Grammar.{Spells};
ghost use Rattle.hs_words.specs.Input.{Gives, whole};
ghost use Rattle.hs_read_pure.specs.Grammar.{IsFormula, IsPure};
ghost use Rattle.hs_read_pure.specs.Formula.{formula as read_formula_tree, pure_formula};

use crate::formulas::formula;
use crate::items::disjunction;
use hs_lex::Token;
use hs_tree::{FormulaTree, PureTree};
use hs_words::{Cursor, ReadError};
use std::alloc::Global;

/// The levels of nesting that a formula of a derivation may have.
const MAX_NESTING: u32 = 256;

#[tactic(auto, unfolding(hs_words::specs::Input::whole))]
fn all_pure(alloc: Global, tokens: &[Token], text: &str) -> Result<PureTree, ReadError>
    requires len { length text.now < 2 ^ 32 }
    requires tokens { AllByRecursion (IsSpan text.now) tokens.now }
    ensures { Gives (λ tree. tree) result (whole (pure_formula 256) text.now tokens.now) }
{
    let mut rest = Cursor::new(text, tokens);
    let tree = disjunction(alloc, &mut rest, MAX_NESTING)?;
    rest.expect_end()?;
    Ok(tree)
}

#[tactic(auto, unfolding(hs_words::specs::Input::whole))]
fn all_formula(alloc: Global, tokens: &[Token], text: &str) -> Result<FormulaTree, ReadError>
    requires len { length text.now < 2 ^ 32 }
    requires tokens { AllByRecursion (IsSpan text.now) tokens.now }
    ensures { Gives (λ tree. tree) result (whole (read_formula_tree 256) text.now tokens.now) }
{
    let mut rest = Cursor::new(text, tokens);
    let tree = formula(alloc, &mut rest, MAX_NESTING)?;
    rest.expect_end()?;
    Ok(tree)
}

/// The pure formula that all the tokens of a text spell. Nesting is at most 256 levels.
///
/// The error is at the token at which reading stops, at the text's end where it needs one more token, at
/// the token that opens a level too many, or `Memory`.
#[tactic(auto, using(crate::proofs::Found::pure_found))]
pub fn read_pure(alloc: Global, tokens: &[Token], text: &str) -> Result<PureTree, ReadError>
    requires len { length text.now < 2 ^ 32 }
    requires tokens { AllByRecursion (IsSpan text.now) tokens.now }

    // The grammar spells the tree by these tokens.
    ensures found { IfOk result (Spells (IsPure 256) text.now tokens.now) }
    // The tree, or the place at which reading stops.
    ensures exact { Gives (λ tree. tree) result (whole (pure_formula 256) text.now tokens.now) }
{
    all_pure(alloc, tokens, text)
}

/// The formula that all the tokens of a text spell. Nesting is at most 256 levels.
///
/// The error is at the token at which reading stops, at the text's end where it needs one more token, at
/// the token that opens a level too many, or `Memory`.
#[tactic(auto, using(crate::proofs::Found::formula_found))]
pub fn read_formula(alloc: Global, tokens: &[Token], text: &str) -> Result<FormulaTree, ReadError>
    requires len { length text.now < 2 ^ 32 }
    requires tokens { AllByRecursion (IsSpan text.now) tokens.now }

    // The grammar spells the tree by these tokens.
    ensures found { IfOk result (Spells (IsFormula 256) text.now tokens.now) }
    // The tree, or the place at which reading stops.
    ensures exact { Gives (λ tree. tree) result (whole (read_formula_tree 256) text.now tokens.now) }
{
    all_formula(alloc, tokens, text)
}
