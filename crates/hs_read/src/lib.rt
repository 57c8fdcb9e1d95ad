//! Sources, read from their tokens.
//!
//! [`read`] answers the tree of a whole source, and [`read_formula`] and [`read_pure`] that of a formula.
//! Each promises:
//!
//! - The tree that it answers is spelled by all the tokens, by the grammar of `specs/`, within the nesting
//!   that is allowed. Each node has the offset of its first token.
//! - What it answers, tree or error, is what the parser of `specs/` gives: `Expected` at the token at which
//!   reading stops, or at the text's length where one more token is needed, and `TooDeep` at the token that
//!   opens a level too many. Only want of memory may stand in its place.
//! - What the grammar has within the nesting is read, and tokens spell at most one tree, which the contracts
//!   of [`sources_are_read`] and its neighbours state.
#![tactic(auto)]

mod conditions;
mod declarations;
mod laws;
mod sources;
mod statements;

pub use hs_read_pure::{
    formulas_are_read, formulas_are_unique, pure_formulas_are_read, pure_formulas_are_unique,
    read_formula, read_pure,
};
pub use hs_tree::{
    ArgTree, AtomTree, BlockTree, CallTree, CondTree, DataTree, DisjunctTree, EntailTree, ExprKind,
    ExprTree, FormulaTree, Ident, ItemKind, ItemTree, LemmaTree, MethodSource, PairSource,
    ParamTree, PartTree, PredTree, PureTree, RelTree, Source, SourceItem, StatementKind,
    StatementTree, TestKind, TestTree, TypeTree, ValueTree,
};
pub use hs_words::{ReadError, What};
pub use laws::{sources_are_read, sources_are_unique, sources_have_disjuncts};
pub use sources::read;
