ghost use Rattle.std.specs.Prelude.{◌≡◌, ◌↔◌, ℕ, IfOk, map};
ghost use Rattle.std.specs.List.{All};
ghost use Rattle.hs_pure.specs.Rename.{renaming, renamed as renamed_pure, InRange};
ghost use Rattle.hs_pure.specs.Stack.{Stack};
ghost use Rattle.hs_pure.specs.Sums.{KeepsKinds};
ghost use Rattle.hs_heap.specs.declared.definitions.Defs.{Defs};
ghost use Rattle.hs_heap.specs.Heap.{Heap};
ghost use Rattle.hs_heap.specs.Meaning.{meaning_at_depth, DisjunctHolds, SatisfiesAtDepth};
ghost use Rattle.hs_heap.specs.Renamed.{renamed_atom, renamed_disjunct, renamed_formula, DisjunctKeepsApart, FormulaKeepsApart, DisjunctInRange, FormulaInRange};

use crate::formula::{Atom, Disjunct, Formula};
use hs_pure::{NoMemory, Pure, Var};
use sqlite_items::Items;
use std::alloc::Global;

impl Atom {
    /// The atom with each listed variable in the place of another, all at once. The first pair of a variable
    /// counts.
    pub fn rename(&self, alloc: Global, map: &[(Var, Var)]) -> Result<Atom, NoMemory>
        ensures { IfOk result (λ a. a ≡ renamed_atom (renaming map.now) self.now) }
    {
        Ok(Atom {
            root: put_name(map, self.root),
            of: self.of,
            args: put_in_vars(alloc, self.args.as_slice(), map)?,
        })
    }
}

impl Disjunct {
    /// The disjunct with each listed variable in the place of another, all at once, bound ones too. The first
    /// pair of a variable counts.
    pub fn rename(&self, alloc: Global, map: &[(Var, Var)]) -> Result<Disjunct, NoMemory>
        requires apart { DisjunctKeepsApart (renaming map.now) self.now }
        requires in_range { DisjunctInRange (renaming map.now) self.now }
        ensures same { IfOk result (λ d. d ≡ renamed_disjunct (renaming map.now) self.now) }
        ensures satisfied { IfOk result (λ d. KeepsKinds (renaming map.now) → (defs : Defs) (k : ℕ) (s : Stack) (h : Heap) → DisjunctHolds (meaning_at_depth defs k) s h d ↔ DisjunctHolds (meaning_at_depth defs k) (λ v. s (renaming map.now v)) h self.now) }
    {
        self.put_names(alloc, map)
    }

    /// As `rename`, also where different variables become one: what the result is, and not what it means.
    pub fn put_names(&self, alloc: Global, map: &[(Var, Var)]) -> Result<Disjunct, NoMemory>
        requires { DisjunctInRange (renaming map.now) self.now }
        ensures { IfOk result (λ d. d ≡ renamed_disjunct (renaming map.now) self.now) }
    {
        Ok(Disjunct {
            bound: put_in_vars(alloc, self.bound.as_slice(), map)?,
            atoms: put_in_atoms(alloc, self.atoms.as_slice(), map)?,
            pure: put_in_conjuncts(alloc, self.pure.as_slice(), map)?,
        })
    }
}

impl Formula {
    /// The formula with each listed variable in the place of another, all at once, bound ones too. The first
    /// pair of a variable counts. Where pairs keep kinds, the result is satisfied, at every depth, where the
    /// formula is at the stack before the renaming.
    pub fn rename(&self, alloc: Global, map: &[(Var, Var)]) -> Result<Formula, NoMemory>
        requires apart { FormulaKeepsApart (renaming map.now) self.now }
        requires in_range { FormulaInRange (renaming map.now) self.now }
        ensures same { IfOk result (λ f. f ≡ renamed_formula (renaming map.now) self.now) }
        ensures satisfied { IfOk result (λ f. KeepsKinds (renaming map.now) → (defs : Defs) (k : ℕ) (s : Stack) (h : Heap) → SatisfiesAtDepth defs k s h f ↔ SatisfiesAtDepth defs k (λ v. s (renaming map.now v)) h self.now) }
    {
        self.put_names(alloc, map)
    }

    /// As `rename`, also where different variables become one: what the result is, and not what it means.
    pub fn put_names(&self, alloc: Global, map: &[(Var, Var)]) -> Result<Formula, NoMemory>
        requires { FormulaInRange (renaming map.now) self.now }
        ensures { IfOk result (λ f. f ≡ renamed_formula (renaming map.now) self.now) }
    {
        Ok(Formula {
            cases: put_in_cases(alloc, self.cases.as_slice(), map)?,
        })
    }
}

// What the pairs put in the place of `v`.
fn put_name(map: &[(Var, Var)], v: Var) -> Var
    ensures { result ≡ renaming map.now v }
{
    for pair in map {
        if pair.0 == v {
            return pair.1;
        }
    }
    v
}

fn put_in_vars(alloc: Global, vs: &[Var], pairs: &[(Var, Var)]) -> Result<Items<Var>, NoMemory>
    ensures { IfOk result (λ all. all ≡ map (renaming pairs.now) vs.now) }
{
    let mut all = Items::new(alloc);
    for v in vs {
        all.push(put_name(pairs, *v))?;
    }
    Ok(all)
}

fn put_in_atoms(
    alloc: Global,
    atoms: &[Atom],
    pairs: &[(Var, Var)],
) -> Result<Items<Atom>, NoMemory>
    ensures { IfOk result (λ all. all ≡ map (renamed_atom (renaming pairs.now)) atoms.now) }
{
    let mut all = Items::new(alloc);
    for atom in atoms {
        all.push(atom.rename(alloc, pairs)?)?;
    }
    Ok(all)
}

fn put_in_conjuncts(
    alloc: Global,
    ps: &[Pure],
    pairs: &[(Var, Var)],
) -> Result<Items<Pure>, NoMemory>
    requires { All (InRange (renaming pairs.now)) ps.now }
    ensures { IfOk result (λ all. all ≡ map (renamed_pure (renaming pairs.now)) ps.now) }
{
    let mut all = Items::new(alloc);
    for p in ps {
        all.push(p.put_names(alloc, pairs)?)?;
    }
    Ok(all)
}

fn put_in_cases(
    alloc: Global,
    cases: &[Disjunct],
    pairs: &[(Var, Var)],
) -> Result<Items<Disjunct>, NoMemory>
    requires { All (DisjunctInRange (renaming pairs.now)) cases.now }
    ensures { IfOk result (λ all. all ≡ map (renamed_disjunct (renaming pairs.now)) cases.now) }
{
    let mut all = Items::new(alloc);
    for case in cases {
        all.push(case.put_names(alloc, pairs)?)?;
    }
    Ok(all)
}
