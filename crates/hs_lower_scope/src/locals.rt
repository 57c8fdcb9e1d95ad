//! The variables of a method.

ghost use Rattle.std.specs.Prelude.{◌≡◌, ◌∷◌, [], ◌++◌, map, IfOk, OnOk};
ghost use Rattle.std.specs.List.{position};
ghost use Rattle.std.specs.Str.{bytes_eq};
ghost use Rattle.hs_lower_scope.specs.Scope as spec;

use crate::variable::Variable;
use hs_declared::VarType;
use hs_heap::{Defs, NodeDef};
use hs_norm::Param;
use hs_pure::NoMemory;
use hs_text::Text;
use hs_tree::{BlockTree, StatementKind, StatementTree, TypeTree};
use sqlite_items::Items;
use std::alloc::Global;

// Where a data type of the name stands.
pub fn node_place(nodes: &[NodeDef], x: &Text) -> Option<usize>
    ensures { result ≡ position (λ d. bytes_eq d.name x.now) nodes.now }
{
    nodes.iter().position(|d| d.name.same(x))
}

/// The number from 1 of a place, or 0. A number of 2^32 or more has no memory.
pub fn number_of(place: Option<usize>) -> Result<u32, NoMemory>
    ensures { IfOk result (λ n. n ≡ spec.number_by_place place) }
{
    match place {
        None => Ok(0),
        Some(i) if i < u32::MAX as usize => Ok(i as u32 + 1),
        Some(_) => Err(NoMemory),
    }
}

/// The number of a data type by its name, or 0.
pub fn node_number(defs: &Defs, x: &Text) -> Result<u32, NoMemory>
    ensures { IfOk result (λ n. n ≡ spec.node_number defs.now x.now) }
{
    number_of(node_place(defs.nodes.as_slice(), x))
}

// A type by its tree.
fn type_of(defs: &Defs, tree: &TypeTree) -> Result<VarType, NoMemory>
    ensures { IfOk result (λ t. t ≡ spec.type_of defs.now tree.now) }
{
    match tree {
        TypeTree::Int(_) => Ok(VarType::Int),
        TypeTree::Named(x) => Ok(VarType::Node(node_number(defs, &x.text)?)),
    }
}

fn push(
    alloc: Global,
    variables: &mut Items<Variable>,
    name: &Text,
    kind: VarType,
) -> Result<(), NoMemory>
    ensures { OnOk result (variables.new ≡ variables.old ++ record { name = name.now; kind = kind } ∷ []) }
{
    let name = name.copy(alloc)?;
    variables.push(Variable { name, kind })?;
    Ok(())
}

/// Adds the parameters.
pub fn push_params(
    alloc: Global,
    variables: &mut Items<Variable>,
    params: &[Param],
) -> Result<(), NoMemory>
    ensures { OnOk result (variables.new ≡ variables.old ++ map spec.param_variable params.now) }
{
    for p in params {
        push(alloc, variables, &p.name, p.kind)?;
    }
    Ok(())
}

#[cycle(locals)]
fn push_statement(
    alloc: Global,
    variables: &mut Items<Variable>,
    defs: &Defs,
    tree: &StatementTree,
) -> Result<(), NoMemory>
    ensures { OnOk result (variables.new ≡ variables.old ++ spec.statement_variables defs.now tree.now) }
{
    match &tree.kind {
        StatementKind::Local(kind, x, _) => push(alloc, variables, &x.text, type_of(defs, kind)?),
        StatementKind::Assign(_, _) => Ok(()),
        StatementKind::Store(_, _, _) => Ok(()),
        StatementKind::Call(_) => Ok(()),
        StatementKind::Branch(_, yes, None) => push_locals(alloc, variables, defs, yes),
        StatementKind::Branch(_, yes, Some(no)) => {
            push_locals(alloc, variables, defs, yes)?;
            push_locals(alloc, variables, defs, no)
        }
        StatementKind::Return(_) => Ok(()),
    }
}

/// Adds the locals of a block, in the order of their declarations.
#[cycle(locals)]
pub fn push_locals(
    alloc: Global,
    variables: &mut Items<Variable>,
    defs: &Defs,
    tree: &BlockTree,
) -> Result<(), NoMemory>
    ensures { OnOk result (variables.new ≡ variables.old ++ spec.block_variables defs.now tree.now) }
{
    for one in tree.statements.as_slice() {
        push_statement(alloc, variables, defs, one)?;
    }
    Ok(())
}
