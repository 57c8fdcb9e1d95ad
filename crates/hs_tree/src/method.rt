ghost use Rattle.std.specs.Prelude.{◌≡◌, IfOk};

use crate::expr::{ExprTree, copy_exprs, copy_two};
use crate::formula::FormulaTree;
use crate::ident::Ident;
use crate::item::RelTree;
use hs_text::NoMemory;
use sqlite_items::{Boxed, Items};
use std::alloc::Global;

/// A method.
#[derive(Drop)]
pub struct MethodSource {
    pub name: Ident,
    pub params: Items<ParamTree>,
    pub result: Option<TypeTree>,
    /// At least one.
    pub pairs: Items<PairSource>,
    pub block: BlockTree,
    /// The offset of its first token.
    pub at: u32,
}

/// A field or a parameter.
#[derive(Debug, Drop)]
pub struct ParamTree {
    pub kind: TypeTree,
    pub name: Ident,
    /// The offset of its first token.
    pub at: u32,
}

/// A type.
#[derive(Debug, Drop)]
pub enum TypeTree {
    /// The type `int`, by its offset.
    Int(u32),
    /// A data type.
    Named(Ident),
}

/// A precondition, what goes down with each call, and a postcondition.
#[derive(Drop)]
pub struct PairSource {
    pub pre: FormulaTree,
    pub variant: Option<ExprTree>,
    pub post: FormulaTree,
    /// The offset of its first token.
    pub at: u32,
}

/// Statements in braces.
#[cycle(block)]
#[derive(Drop)]
pub struct BlockTree {
    pub statements: Items<StatementTree>,
    /// The offset of its first token.
    pub at: u32,
    /// The offset of its closing brace.
    pub end: u32,
}

/// A statement.
#[cycle(block)]
#[derive(Drop)]
pub struct StatementTree {
    pub kind: StatementKind,
    /// The offset of its first token.
    pub at: u32,
}

/// What a statement is.
#[cycle(block)]
#[derive(Drop)]
pub enum StatementKind {
    /// The declaration of a local.
    Local(TypeTree, Ident, Option<ValueTree>),
    Assign(Ident, ValueTree),
    /// A variable, its field, and what the field gets.
    Store(Ident, Ident, ExprTree),
    Call(CallTree),
    Branch(CondTree, BlockTree, Option<BlockTree>),
    Return(Option<ExprTree>),
}

/// What a local gets.
#[derive(Drop)]
pub enum ValueTree {
    /// A new node, by the offset of `new`.
    New(u32, Ident, Items<ExprTree>),
    Call(CallTree),
    /// A field of a variable.
    Load(Ident, Ident),
    Value(ExprTree),
}

/// A call of a method.
#[derive(Drop)]
pub struct CallTree {
    pub name: Ident,
    pub args: Items<ExprTree>,
}

/// An "or" of "and"s of tests.
#[cycle(condition)]
#[derive(Drop)]
pub struct CondTree {
    pub cases: Items<Items<TestTree>>,
    /// The offset of its first token.
    pub at: u32,
}

/// A test of a condition.
#[cycle(condition)]
#[derive(Drop)]
pub struct TestTree {
    pub kind: TestKind,
    /// The offset of its first token.
    pub at: u32,
}

/// What a test is.
#[cycle(condition)]
#[derive(Drop)]
pub enum TestKind {
    Not(Boxed<TestTree>),
    /// What stands in parentheses.
    Group(CondTree),
    /// None of the relations of bags.
    Rel(RelTree, ExprTree, ExprTree),
}

impl TypeTree {
    /// An equal type.
    pub fn copy(&self, alloc: Global) -> Result<TypeTree, NoMemory>
        ensures { IfOk result (λ t. t ≡ self.now) }
    {
        match self {
            TypeTree::Int(at) => Ok(TypeTree::Int(*at)),
            TypeTree::Named(name) => Ok(TypeTree::Named(name.copy(alloc)?)),
        }
    }
}

impl ParamTree {
    /// An equal parameter.
    pub fn copy(&self, alloc: Global) -> Result<ParamTree, NoMemory>
        ensures { IfOk result (λ t. t ≡ self.now) }
    {
        Ok(ParamTree {
            kind: self.kind.copy(alloc)?,
            name: self.name.copy(alloc)?,
            at: self.at,
        })
    }
}

pub fn copy_params(alloc: Global, params: &[ParamTree]) -> Result<Items<ParamTree>, NoMemory>
    ensures { IfOk result (λ all. all ≡ params.now) }
{
    let mut all = Items::new(alloc);
    for param in params {
        all.push(param.copy(alloc)?)?;
    }
    Ok(all)
}

impl CallTree {
    /// An equal call.
    pub fn copy(&self, alloc: Global) -> Result<CallTree, NoMemory>
        ensures { IfOk result (λ t. t ≡ self.now) }
    {
        Ok(CallTree {
            name: self.name.copy(alloc)?,
            args: copy_exprs(alloc, self.args.as_slice())?,
        })
    }
}

impl ValueTree {
    /// An equal value.
    pub fn copy(&self, alloc: Global) -> Result<ValueTree, NoMemory>
        ensures { IfOk result (λ t. t ≡ self.now) }
    {
        match self {
            ValueTree::New(at, name, args) => Ok(ValueTree::New(
                *at,
                name.copy(alloc)?,
                copy_exprs(alloc, args.as_slice())?,
            )),
            ValueTree::Call(call) => Ok(ValueTree::Call(call.copy(alloc)?)),
            ValueTree::Load(name, field) => {
                Ok(ValueTree::Load(name.copy(alloc)?, field.copy(alloc)?))
            }
            ValueTree::Value(expr) => Ok(ValueTree::Value(expr.copy(alloc)?)),
        }
    }
}

#[cycle(copy_test)]
fn copy_test_cases(
    alloc: Global,
    cases: &[Items<TestTree>],
) -> Result<Items<Items<TestTree>>, NoMemory>
    ensures { IfOk result (λ all. all ≡ cases.now) }
{
    let mut all = Items::new(alloc);
    for case in cases {
        let mut tests = Items::new(alloc);
        let members = case.as_slice();
        for test in members {
            tests.push(test.copy(alloc)?)?;
        }
        all.push(tests)?;
    }
    Ok(all)
}

impl CondTree {
    /// An equal condition.
    #[cycle(copy_test)]
    pub fn copy(&self, alloc: Global) -> Result<CondTree, NoMemory>
        ensures { IfOk result (λ t. t ≡ self.now) }
    {
        Ok(CondTree {
            cases: copy_test_cases(alloc, self.cases.as_slice())?,
            at: self.at,
        })
    }
}

// On the heap, so that the caller drops it by one call and not case by case.
#[cycle(copy_test)]
fn copy_boxed(alloc: Global, test: &TestTree) -> Result<Boxed<TestTree>, NoMemory>
    ensures { IfOk result (λ t. t ≡ test.now) }
{
    Ok(Boxed::new(alloc, test.copy(alloc)?)?)
}

impl TestKind {
    /// An equal kind.
    #[cycle(copy_test)]
    pub fn copy(&self, alloc: Global) -> Result<TestKind, NoMemory>
        ensures { IfOk result (λ t. t ≡ self.now) }
    {
        match self {
            TestKind::Not(test) => Ok(TestKind::Not(copy_boxed(alloc, test.get())?)),
            TestKind::Group(cond) => Ok(TestKind::Group(cond.copy(alloc)?)),
            TestKind::Rel(relation, left, right) => {
                let (left, right) = copy_two(alloc, left, right)?;
                Ok(TestKind::Rel(*relation, left, right))
            }
        }
    }
}

impl TestTree {
    /// An equal test.
    #[cycle(copy_test)]
    pub fn copy(&self, alloc: Global) -> Result<TestTree, NoMemory>
        ensures { IfOk result (λ t. t ≡ self.now) }
    {
        Ok(TestTree {
            kind: self.kind.copy(alloc)?,
            at: self.at,
        })
    }
}

#[cycle(copy_block)]
fn copy_statements(
    alloc: Global,
    statements: &[StatementTree],
) -> Result<Items<StatementTree>, NoMemory>
    ensures { IfOk result (λ all. all ≡ statements.now) }
{
    let mut all = Items::new(alloc);
    for statement in statements {
        all.push(statement.copy(alloc)?)?;
    }
    Ok(all)
}

impl BlockTree {
    /// An equal block.
    #[cycle(copy_block)]
    pub fn copy(&self, alloc: Global) -> Result<BlockTree, NoMemory>
        ensures { IfOk result (λ t. t ≡ self.now) }
    {
        Ok(BlockTree {
            statements: copy_statements(alloc, self.statements.as_slice())?,
            at: self.at,
            end: self.end,
        })
    }
}

impl StatementKind {
    /// An equal kind.
    #[cycle(copy_block)]
    pub fn copy(&self, alloc: Global) -> Result<StatementKind, NoMemory>
        ensures { IfOk result (λ t. t ≡ self.now) }
    {
        match self {
            StatementKind::Local(kind, name, None) => Ok(StatementKind::Local(
                kind.copy(alloc)?,
                name.copy(alloc)?,
                None,
            )),
            StatementKind::Local(kind, name, Some(value)) => Ok(StatementKind::Local(
                kind.copy(alloc)?,
                name.copy(alloc)?,
                Some(value.copy(alloc)?),
            )),
            StatementKind::Assign(name, value) => {
                Ok(StatementKind::Assign(name.copy(alloc)?, value.copy(alloc)?))
            }
            StatementKind::Store(name, field, expr) => Ok(StatementKind::Store(
                name.copy(alloc)?,
                field.copy(alloc)?,
                expr.copy(alloc)?,
            )),
            StatementKind::Call(call) => Ok(StatementKind::Call(call.copy(alloc)?)),
            StatementKind::Branch(cond, block, None) => Ok(StatementKind::Branch(
                cond.copy(alloc)?,
                block.copy(alloc)?,
                None,
            )),
            StatementKind::Branch(cond, block, Some(other)) => Ok(StatementKind::Branch(
                cond.copy(alloc)?,
                block.copy(alloc)?,
                Some(other.copy(alloc)?),
            )),
            StatementKind::Return(None) => Ok(StatementKind::Return(None)),
            StatementKind::Return(Some(expr)) => {
                Ok(StatementKind::Return(Some(expr.copy(alloc)?)))
            }
        }
    }
}

impl StatementTree {
    /// An equal statement.
    #[cycle(copy_block)]
    pub fn copy(&self, alloc: Global) -> Result<StatementTree, NoMemory>
        ensures { IfOk result (λ t. t ≡ self.now) }
    {
        Ok(StatementTree {
            kind: self.kind.copy(alloc)?,
            at: self.at,
        })
    }
}

fn copy_variant(alloc: Global, variant: &Option<ExprTree>) -> Result<Option<ExprTree>, NoMemory>
    ensures { IfOk result (λ t. t ≡ variant.now) }
{
    match variant {
        None => Ok(None),
        Some(expr) => Ok(Some(expr.copy(alloc)?)),
    }
}

impl PairSource {
    /// An equal pair.
    pub fn copy(&self, alloc: Global) -> Result<PairSource, NoMemory>
        ensures { IfOk result (λ t. t ≡ self.now) }
    {
        Ok(PairSource {
            pre: self.pre.copy(alloc)?,
            variant: copy_variant(alloc, &self.variant)?,
            post: self.post.copy(alloc)?,
            at: self.at,
        })
    }
}

fn copy_pairs(alloc: Global, pairs: &[PairSource]) -> Result<Items<PairSource>, NoMemory>
    ensures { IfOk result (λ all. all ≡ pairs.now) }
{
    let mut all = Items::new(alloc);
    for pair in pairs {
        all.push(pair.copy(alloc)?)?;
    }
    Ok(all)
}

fn copy_result(alloc: Global, kind: &Option<TypeTree>) -> Result<Option<TypeTree>, NoMemory>
    ensures { IfOk result (λ t. t ≡ kind.now) }
{
    match kind {
        None => Ok(None),
        Some(kind) => Ok(Some(kind.copy(alloc)?)),
    }
}

impl MethodSource {
    /// An equal method.
    pub fn copy(&self, alloc: Global) -> Result<MethodSource, NoMemory>
        ensures { IfOk result (λ t. t ≡ self.now) }
    {
        Ok(MethodSource {
            name: self.name.copy(alloc)?,
            params: copy_params(alloc, self.params.as_slice())?,
            result: copy_result(alloc, &self.result)?,
            pairs: copy_pairs(alloc, self.pairs.as_slice())?,
            block: self.block.copy(alloc)?,
            at: self.at,
        })
    }
}
