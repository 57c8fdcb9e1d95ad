//! Scopes.

ghost use Rattle.std.specs.Prelude.{◌≡◌, ◌++◌, length, map, Some, IfOk, option_map};
ghost use Rattle.std.specs.List.{position, find};
ghost use Rattle.std.specs.Option.{option_copied};
ghost use Rattle.std.specs.Str.{bytes_eq};
ghost use Rattle.hs_heap.specs.Sound.{node_at as node_by_number};
ghost use Rattle.hs_declared.specs.declared.types.VarType.TheVariants as kind_of;
ghost use Rattle.hs_lower_scope.specs.Scope as spec;
ghost use Rattle.hs_lower_scope.specs.View.{shown};

use crate::locals::{node_number, node_place, number_of, push_locals, push_params};
use crate::variable::{Field, Variable, field_type};
use hs_declared::VarType;
use hs_heap::{Defs, NodeDef};
use hs_norm::{MethodTree, Resolved};
use hs_pure::NoMemory;
use hs_text::Text;
use sqlite_items::Items;
use std::alloc::Global;

/// The variables of a method, whose k-th has slot k, the data types and the methods of its source, and the type of its
/// result. A name is looked up as the first of its kind; where there is none a number is 0 and a type is an int.
#[derive(Drop)]
pub struct Scope<'a> {
    pub defs: &'a Defs,
    pub methods: &'a [MethodTree],
    pub variables: Items<Variable>,
    pub result: Option<VarType>,
}

impl<'a> Scope<'a> {
    /// The scope of a method: its parameters, then the locals of its block.
    pub fn of(alloc: Global, r: &'a Resolved, m: &'a MethodTree) -> Result<Scope<'a>, NoMemory>
        ensures { IfOk result (λ s. shown s ≡ spec.scope_of r.now m.now) }
    {
        let variables = variables(alloc, &r.defs, m)?;
        Ok(Scope {
            defs: &r.defs,
            methods: r.methods.as_slice(),
            variables,
            result: m.result,
        })
    }

    /// The number of variables.
    pub fn count(&self) -> Result<u32, NoMemory>
        ensures { IfOk result (λ n. n ≡ length (shown self.now).variables) }
    {
        narrow(self.variables.len())
    }

    /// The slot of a variable.
    pub fn slot(&self, x: &Text) -> Result<u32, NoMemory>
        ensures { IfOk result (λ k. k ≡ spec.slot_of (shown self.now) x.now) }
    {
        number_of(variable_place(self.variables.as_slice(), x))
    }

    /// The type of a variable.
    pub fn kind(&self, x: &Text) -> VarType
        ensures { result ≡ spec.kind_of (shown self.now) x.now }
    {
        match variable_named(self.variables.as_slice(), x) {
            Some(v) => v.kind,
            None => VarType::Int,
        }
    }

    /// The number of a data type.
    pub fn node_number(&self, x: &Text) -> Result<u32, NoMemory>
        ensures { IfOk result (λ n. n ≡ spec.node_number (shown self.now).defs x.now) }
    {
        node_number(self.defs, x)
    }

    /// Whether the type is that data type.
    pub fn is_of(&self, kind: VarType, x: &Text) -> bool
        ensures { result ≡ spec.is_of (shown self.now).defs kind x.now }
    {
        match kind {
            VarType::Int => false,
            VarType::Node(k) => is_node(self.defs, k, x),
        }
    }

    /// A data type by its name.
    pub fn node(&self, x: &Text) -> Option<&NodeDef>
        ensures { option_copied result ≡ spec.node_named (shown self.now) x.now }
    {
        self.defs.nodes.as_slice().iter().find(|d| d.name.same(x))
    }

    /// The number of a method.
    pub fn method_number(&self, x: &Text) -> Result<u32, NoMemory>
        ensures { IfOk result (λ n. n ≡ spec.method_number (shown self.now) x.now) }
    {
        number_of(method_place(self.methods, x))
    }

    /// A method by its name.
    pub fn method(&self, x: &Text) -> Option<&MethodTree>
        ensures { option_copied result ≡ spec.method_named (shown self.now) x.now }
    {
        self.methods.iter().find(|m| m.name.same(x))
    }

    /// The field of the name, of a type that is a data type.
    pub fn field(&self, kind: VarType, f: &Text) -> Result<Option<Field>, NoMemory>
        ensures { IfOk result (λ x. x ≡ spec.field_in (shown self.now).defs kind f.now) }
    {
        let VarType::Node(k) = kind else {
            return Ok(None);
        };
        match node_at(self.defs, k) {
            Some(node) => field_of(k, node, f),
            None => Ok(None),
        }
    }

    /// The type of the field of the name, of a type that is a data type.
    pub fn field_kind(&self, kind: VarType, f: &Text) -> Option<VarType>
        ensures { result ≡ spec.field_kind_in (shown self.now).defs kind f.now }
    {
        let VarType::Node(k) = kind else {
            return None;
        };
        match node_at(self.defs, k) {
            Some(node) => kind_of_field(node, f),
            None => None,
        }
    }
}

// The data type of a number from 1.
fn node_at(defs: &Defs, k: u32) -> Option<&NodeDef>
    ensures { option_copied result ≡ node_by_number defs.now k }
{
    if k == 0 {
        return None;
    }
    defs.nodes.as_slice().get(k as usize - 1)
}

// A number that 32 bits hold.
fn narrow(n: usize) -> Result<u32, NoMemory>
    ensures { IfOk result (λ k. k ≡ n) }
{
    if n > u32::MAX as usize {
        return Err(NoMemory);
    }
    Ok(n as u32)
}

// Whether k is the number from 1 of the place, or 0 where there is none.
fn is_number(k: u32, place: Option<usize>) -> bool
    ensures { result ≡ spec.is_number k place }
{
    match place {
        None => k == 0,
        Some(i) => k != 0 && k as usize - 1 == i,
    }
}

// Whether k is the number of the data type.
fn is_node(defs: &Defs, k: u32, x: &Text) -> bool
    ensures { result ≡ spec.is_of defs.now (kind_of.Node k) x.now }
{
    is_number(k, node_place(defs.nodes.as_slice(), x))
}

fn variable_place(variables: &[Variable], x: &Text) -> Option<usize>
    ensures { result ≡ position (λ v. bytes_eq v.name x.now) variables.now }
{
    variables.iter().position(|v| v.name.same(x))
}

fn variable_named<'a>(variables: &'a [Variable], x: &Text) -> Option<&'a Variable>
    ensures { option_copied result ≡ find (λ v. bytes_eq v.name x.now) variables.now }
{
    variables.iter().find(|v| v.name.same(x))
}

fn method_place(methods: &[MethodTree], x: &Text) -> Option<usize>
    ensures { result ≡ position (λ m. bytes_eq m.name x.now) methods.now }
{
    methods.iter().position(|m| m.name.same(x))
}

fn field_place(fields: &[(Text, Option<u32>)], f: &Text) -> Option<usize>
    ensures { result ≡ position (λ x. bytes_eq x.0 f.now) fields.now }
{
    fields.iter().position(|x| x.0.same(f))
}

// The type of a field at a place.
fn kind_at(fields: &[(Text, Option<u32>)], i: Option<usize>) -> Option<VarType>
    ensures { result ≡ spec.kind_by fields.now i }
{
    match i {
        Some(i) => match fields.get(i) {
            Some((_, to)) => Some(field_type(*to)),
            None => None,
        },
        None => None,
    }
}

// The type of a field of a data type.
fn kind_of_field(node: &NodeDef, f: &Text) -> Option<VarType>
    ensures { result ≡ spec.kind_of_field f.now (Some node.now) }
{
    let fields = node.fields.as_slice();
    kind_at(fields, field_place(fields, f))
}

// A field of the data type of number k, at a place.
fn field_at(k: u32, number: u32, kind: Option<VarType>) -> Option<Field>
    ensures { result ≡ spec.field_by k number kind }
{
    match kind {
        Some(kind) => Some(Field {
            node: k,
            number,
            kind,
        }),
        None => None,
    }
}

// A field of the data type of number k.
fn field_of(k: u32, node: &NodeDef, f: &Text) -> Result<Option<Field>, NoMemory>
    ensures { IfOk result (λ x. x ≡ spec.field_of k f.now (Some node.now)) }
{
    let fields = node.fields.as_slice();
    let number = number_of(field_place(fields, f))?;
    Ok(field_at(k, number, kind_of_field(node, f)))
}

// The parameters, and the locals of the block.
fn variables(alloc: Global, defs: &Defs, m: &MethodTree) -> Result<Items<Variable>, NoMemory>
    ensures { IfOk result (λ vs. vs ≡ map spec.param_variable m.now.params ++ spec.block_variables defs.now m.now.block) }
{
    let mut variables = Items::new(alloc);
    push_params(alloc, &mut variables, m.params.as_slice())?;
    push_locals(alloc, &mut variables, defs, &m.block)?;
    Ok(variables)
}
