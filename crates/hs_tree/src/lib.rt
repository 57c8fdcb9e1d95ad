//! The trees of a source: what its tokens spell.
//!
//! Each node has the offset `at` of its first token. A list of lists is an "or" of "and"s. A tree has no
//! pointers in the eyes of a contract, so two trees are equal where they look the same, and `copy` answers
//! an equal tree.
#![tactic(auto)]

mod expr;
mod formula;
mod ident;
mod item;
mod method;
mod shared;
mod source;

pub use expr::{ExprKind, ExprTree, PartTree};
pub use formula::{ArgTree, AtomTree, DisjunctTree, FormulaTree};
pub use ident::Ident;
pub use item::{ItemKind, ItemTree, PureTree, RelTree};
pub use method::{
    BlockTree, CallTree, CondTree, MethodSource, PairSource, ParamTree, StatementKind,
    StatementTree, TestKind, TestTree, TypeTree, ValueTree,
};
pub use source::{DataTree, EntailTree, LemmaTree, PredTree, Source, SourceItem};
