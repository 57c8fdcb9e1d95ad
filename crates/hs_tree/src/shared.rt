use crate::{
    ArgTree, AtomTree, BlockTree, CallTree, CondTree, DataTree, DisjunctTree, EntailTree, ExprKind,
    ExprTree, FormulaTree, Ident, ItemKind, ItemTree, LemmaTree, MethodSource, PairSource,
    ParamTree, PartTree, PredTree, PureTree, RelTree, Source, SourceItem, StatementKind,
    StatementTree, TestKind, TestTree, TypeTree, ValueTree,
};

fn is_shared<T: Send + Sync>() {}

// Each type of this crate may go to another thread and be read by several.
fn trees_are_shared() {
    is_shared::<Ident>();
    is_shared::<PartTree>();
    is_shared::<ExprKind>();
    is_shared::<ExprTree>();
    is_shared::<RelTree>();
    is_shared::<ItemKind>();
    is_shared::<ItemTree>();
    is_shared::<PureTree>();
    is_shared::<ArgTree>();
    is_shared::<AtomTree>();
    is_shared::<DisjunctTree>();
    is_shared::<TypeTree>();
    is_shared::<ParamTree>();
    is_shared::<CallTree>();
    is_shared::<ValueTree>();
    is_shared::<TestKind>();
    is_shared::<TestTree>();
    is_shared::<CondTree>();
    is_shared::<StatementKind>();
    is_shared::<StatementTree>();
    is_shared::<BlockTree>();
    is_shared::<DataTree>();
    is_shared::<LemmaTree>();
}

// So may the types that hold whole formulas.
fn formulas_are_shared() {
    is_shared::<FormulaTree>();
    is_shared::<PairSource>();
    is_shared::<MethodSource>();
    is_shared::<PredTree>();
    is_shared::<EntailTree>();
    is_shared::<SourceItem>();
    is_shared::<Source>();
}
