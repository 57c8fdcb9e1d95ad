//! Atoms, disjuncts and formulas.

ghost use Rattle.std.specs.Prelude.{◌≡◌, List, ℕ};
ghost use Rattle.std.specs.List.{zip};
ghost use Rattle.indexmap.specs.IndexMap.{get_by_text};
ghost use Rattle.hs_numbering.specs.Numbering.{Builds, each, each_counted};
ghost use Rattle.hs_norm_formula.specs.Table.{place};
ghost use Rattle.hs_norm_formula.specs.Formula as spec;

use crate::expr::{bag_expr, bare, number_expr};
use crate::splice::conjuncts;
use crate::sum::number_var;
use crate::table::{Entry, declared};
use hs_heap::{Atom, Disjunct, Formula, Of};
use hs_numbering::{Limit, Numbering, Problem, Reading};
use hs_pure::{Bag, Lin, NoMemory, Pure, Var};
use hs_tree::{ArgTree, AtomTree, DisjunctTree, ExprTree, FormulaTree, Ident};
use indexmap::IndexMap;
use sqlite_items::Items;
use std::alloc::Global;

/// The equation of a new variable with an argument.
#[tactic(auto, unfolding(crate::specs::Formula::equation))]
fn equation(alloc: Global, n: &mut Numbering, v: Var, e: &ExprTree) -> Result<Pure, NoMemory>
    ensures { Builds (spec.equation v e.now n.old) result n.new }
{
    if v.bag {
        let b = bag_expr(alloc, n, e)?;
        return Ok(Pure::BagEq(Bag::Name(v), b));
    }
    let a = number_expr(alloc, n, e)?;
    let mut terms = Items::new(alloc);
    terms.push((v, 1))?;
    Ok(Pure::Eq(Lin { terms, constant: 0 }, a))
}

/// An argument of this kind.
#[tactic(auto, unfolding(crate::specs::Formula::argument))]
fn argument(alloc: Global, n: &mut Numbering, is_bag: bool, tree: &ArgTree) -> Result<Var, NoMemory>
    ensures { Builds (spec.argument is_bag tree.now n.old) result n.new }
{
    match tree {
        ArgTree::Hole(at) => n.give_bound(*at, is_bag),
        ArgTree::Value(e) => value(alloc, n, is_bag, e),
    }
}

fn value(alloc: Global, n: &mut Numbering, is_bag: bool, e: &ExprTree) -> Result<Var, NoMemory>
    ensures { Builds (spec.value is_bag e.now (spec.bare e.now) n.old) result n.new }
{
    match bare(e) {
        Some(ident) => {
            let v = n.resolve(alloc, ident)?;
            if v.bag != is_bag {
                n.blame(ident.at, Problem::Kind)?;
            }
            Ok(v)
        }
        None => {
            let v = n.give_bound(e.at, is_bag)?;
            let equation = equation(alloc, n, v, e)?;
            n.equate(equation)?;
            Ok(v)
        }
    }
}

fn arguments(
    alloc: Global,
    n: &mut Numbering,
    kinds: &[bool],
    trees: &[ArgTree],
) -> Result<Items<Var>, NoMemory>
    ensures { Builds (each (λ p. spec.argument p.0 p.1) (zip kinds.now trees.now) n.old) result n.new }
{
    let mut vars = Items::new(alloc);
    for i in 0..trees.len() {
        if i >= kinds.len() {
            return Ok(vars);
        }
        vars.push(argument(alloc, n, kinds[i], &trees[i])?)?;
    }
    Ok(vars)
}

#[tactic(auto, unfolding(crate::specs::Formula::atom))]
fn atom(
    alloc: Global,
    n: &mut Numbering,
    places: &IndexMap<String, usize>,
    entries: &[Entry],
    tree: &AtomTree,
) -> Result<Atom, NoMemory>
    requires { (q : List ℕ) → get_by_text places.now q ≡ place q entries.now }
    ensures { Builds (spec.atom entries.now tree.now n.old) result n.new }
{
    let root = number_var(alloc, n, &tree.root)?;
    match declared(places, entries, &tree.name.text) {
        Some(entry) => atom_of(alloc, n, root, entry, tree),
        None => {
            let name = tree.name.text.copy(alloc)?;
            n.blame(tree.name.at, Problem::Unknown(name))?;
            Ok(Atom {
                root,
                of: Of::Node(0),
                args: Items::new(alloc),
            })
        }
    }
}

fn atom_of(
    alloc: Global,
    n: &mut Numbering,
    root: Var,
    entry: &Entry,
    tree: &AtomTree,
) -> Result<Atom, NoMemory>
    ensures { Builds (spec.atom_of root entry.now tree.now n.old) result n.new }
{
    if entry.kinds.len() != tree.args.len() {
        n.blame(tree.root.at, Problem::Arity)?;
    }
    let args = arguments(alloc, n, entry.kinds.as_slice(), tree.args.as_slice())?;
    Ok(Atom {
        root,
        of: entry.of,
        args,
    })
}

fn binders(alloc: Global, n: &mut Numbering, names: &[Ident]) -> Result<Items<Var>, NoMemory>
    ensures { Builds (each spec.bind names.now n.old) result n.new }
{
    let mut vars = Items::new(alloc);
    for name in names {
        vars.push(n.bind(alloc, name)?)?;
    }
    Ok(vars)
}

fn atoms(
    alloc: Global,
    n: &mut Numbering,
    places: &IndexMap<String, usize>,
    entries: &[Entry],
    trees: &[AtomTree],
) -> Result<Items<Atom>, NoMemory>
    requires { (q : List ℕ) → get_by_text places.now q ≡ place q entries.now }
    ensures { Builds (each_counted (spec.counted_atom entries.now) trees.now n.old) result n.new }
{
    let mut atoms = Items::new(alloc);
    for tree in trees {
        if atoms.len() == 64 && n.reading != Reading::Numbered {
            n.blame(tree.root.at, Problem::TooMany(Limit::Atoms))?;
        }
        atoms.push(atom(alloc, n, places, entries, tree)?)?;
    }
    Ok(atoms)
}

/// The normal form of a disjunct.
#[tactic(auto, unfolding(crate::specs::Formula::disjunct))]
pub fn disjunct(
    alloc: Global,
    n: &mut Numbering,
    places: &IndexMap<String, usize>,
    entries: &[Entry],
    tree: &DisjunctTree,
) -> Result<Disjunct, NoMemory>
    requires { (q : List ℕ) → get_by_text places.now q ≡ place q entries.now }
    ensures { Builds (spec.disjunct entries.now tree.now n.old) result n.new }
{
    let mut bound = binders(alloc, n, tree.bound.as_slice())?;
    let atoms = atoms(alloc, n, places, entries, tree.atoms.as_slice())?;
    let written = conjuncts(alloc, n, tree.items.as_slice())?;
    n.leave_all(tree.bound.as_slice());
    bound.append(n.take_flat(alloc))?;
    let mut pure = n.take_equations(alloc);
    pure.append(written)?;
    Ok(Disjunct { bound, atoms, pure })
}

/// The normal form of a formula.
pub fn normal_formula(
    alloc: Global,
    n: &mut Numbering,
    places: &IndexMap<String, usize>,
    entries: &[Entry],
    tree: &FormulaTree,
) -> Result<Formula, NoMemory>
    requires { (q : List ℕ) → get_by_text places.now q ≡ place q entries.now }
    ensures { Builds (spec.formula entries.now tree.now n.old) result n.new }
{
    let mut cases = Items::new(alloc);
    for case in tree.cases.as_slice() {
        if cases.len() == 16 && n.reading != Reading::Numbered {
            n.blame(case.at, Problem::TooMany(Limit::Cases))?;
        }
        cases.push(disjunct(alloc, n, places, entries, case)?)?;
    }
    Ok(Formula { cases })
}
