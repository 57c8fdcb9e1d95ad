ghost use Rattle.std.specs.Prelude.{◌≡◌, ◌↔◌, IsTrue, not};
ghost use Rattle.std.specs.List.{list_all};
ghost use Rattle.std.specs.Option.{option_copied};
ghost use Rattle.hs_heap.specs.Sound.{IsSound, AtomFits, DisjunctFits, FormulaFits, node_at};
ghost use Rattle.hs_heap.specs.Meaning.{pred_at};
ghost use Rattle.hs_heap.specs.Instance.{lemma_at};
ghost use Rattle.hs_heap.specs.Tests.{in_scope, are_distinct, follow_from, same_kinds, is_like_node, is_like_pred, arguments_fit, atom_alone_fits, atom_fits, parts_fit, disjunct_fits, short_fits, bound_fits, conjunct_fits, head_fits, pred_parts_fit, pred_fits, lemma_parts_fit, lemma_fits, defs_fit};

use crate::definitions::{Defs, Lemma, NodeDef, PredDef};
use crate::formula::{Atom, Disjunct, Formula, Of};
use crate::pures::{is_and, number_fits, plain_fits};
use crate::scope::{Scope, is_listed};
use hs_pure::{Pure, Var};
use hs_text::Text;

pub(crate) const SELF: Var = Var {
    number: 1,
    bag: false,
};

const MAX_NEXT: u32 = 1024;

const MAX_CASES: usize = 16;

const MAX_ATOMS: usize = 64;

impl Defs {
    /// Whether the predicates and the lemmas are of the normal form. It takes no memory.
    pub fn sound(&self) -> bool
        ensures { IsTrue result ↔ IsSound self.now }
    {
        self.fit()
    }

    fn fit(&self) -> bool
        ensures { result ≡ defs_fit self.now }
    {
        preds_fit(self.preds.as_slice(), self) && lemmas_fit(self.lemmas.as_slice(), self)
    }

    // The data type of a number from 1.
    pub(crate) fn node(&self, n: u32) -> Option<&NodeDef>
        ensures { option_copied result ≡ node_at self.now n }
    {
        if n == 0 {
            return None;
        }
        self.nodes.as_slice().get(n as usize - 1)
    }

    // The predicate of a number from 1.
    pub(crate) fn pred(&self, n: u32) -> Option<&PredDef>
        ensures { option_copied result ≡ pred_at self.now n }
    {
        if n == 0 {
            return None;
        }
        self.preds.as_slice().get(n as usize - 1)
    }

    // The lemma of a number from 1.
    pub(crate) fn lemma(&self, n: u32) -> Option<&Lemma>
        ensures { option_copied result ≡ lemma_at self.now n }
    {
        if n == 0 {
            return None;
        }
        self.lemmas.as_slice().get(n as usize - 1)
    }
}

impl Atom {
    /// Whether the root is a number, what the atom is of is there, and the arguments are as many and of the right
    /// kinds. It takes no memory.
    pub fn fits(&self, defs: &Defs) -> bool
        ensures { IsTrue result ↔ AtomFits defs.now self.now }
    {
        atom_alone_fits(self, defs)
    }
}

impl Disjunct {
    /// Whether the disjunct is well formed over the definitions, with its free variables among `free` and all of
    /// its numbers from 1 on and below `next`. It takes no memory.
    pub fn fits(&self, defs: &Defs, free: &[Var], next: u32) -> bool
        ensures { IsTrue result ↔ DisjunctFits defs.now free.now next self.now }
    {
        let free = Scope::Numbered(free, next);
        disjunct_fits(self, defs, &free, next)
    }
}

impl Formula {
    /// Whether each disjunct fits, as `Disjunct::fits` tells. It takes no memory.
    pub fn fits(&self, defs: &Defs, free: &[Var], next: u32) -> bool
        ensures { IsTrue result ↔ FormulaFits defs.now free.now next self.now }
    {
        let free = Scope::Numbered(free, next);
        disjuncts_fit(self.cases.as_slice(), defs, &free, next)
    }
}

fn disjuncts_fit(cases: &[Disjunct], defs: &Defs, free: &Scope, next: u32) -> bool
    ensures { result ≡ list_all (disjunct_fits defs.now (in_scope free.now) next) cases.now }
{
    cases.iter().all(|d| disjunct_fits(d, defs, free, next))
}

fn preds_fit(preds: &[PredDef], defs: &Defs) -> bool
    ensures { result ≡ list_all (pred_fits defs.now) preds.now }
{
    preds.iter().all(|p| pred_fits(p, defs))
}

fn lemmas_fit(lemmas: &[Lemma], defs: &Defs) -> bool
    ensures { result ≡ list_all (lemma_fits defs.now) lemmas.now }
{
    lemmas.iter().all(|l| lemma_fits(l, defs))
}

fn pred_fits(p: &PredDef, defs: &Defs) -> bool
    ensures { result ≡ pred_fits defs.now p.now }
{
    let params = Scope::Listed(p.params.as_slice());
    let free = Scope::With(SELF, &params);
    pred_parts_fit(p, defs, &free)
}

fn pred_parts_fit(p: &PredDef, defs: &Defs, free: &Scope) -> bool
    ensures { result ≡ pred_parts_fit defs.now p.now (in_scope free.now) }
{
    head_fits(p.params.as_slice(), p.next)
        && p.body.cases.len() <= MAX_CASES
        && cases_fit(p.body.cases.as_slice(), defs, free, p.next)
        && plain_fits(&p.inv, free, p.next, &*free)
}

fn cases_fit(cases: &[Disjunct], defs: &Defs, free: &Scope, next: u32) -> bool
    ensures { result ≡ list_all (short_fits defs.now (in_scope free.now) next) cases.now }
{
    cases.iter().all(|d| short_fits(d, defs, free, next))
}

fn lemma_fits(l: &Lemma, defs: &Defs) -> bool
    ensures { result ≡ lemma_fits defs.now l.now }
{
    let params = Scope::Listed(l.params.as_slice());
    let free = Scope::With(SELF, &params);
    lemma_parts_fit(l, defs, &free)
}

fn lemma_parts_fit(l: &Lemma, defs: &Defs, free: &Scope) -> bool
    ensures { result ≡ lemma_parts_fit defs.now l.now (in_scope free.now) }
{
    head_fits(l.params.as_slice(), l.next)
        && is_like_pred(defs.pred(l.pred), l.params.as_slice())
        && short_fits(&l.right, defs, free, l.next)
}

// `self` and the parameters are 1, 2, 3 and so on, below `next`.
fn head_fits(params: &[Var], next: u32) -> bool
    ensures { result ≡ head_fits params.now next }
{
    1 < next && next <= MAX_NEXT && follow_from(params, 2, next)
}

fn follow_from(vs: &[Var], n: u32, next: u32) -> bool
    ensures { result ≡ follow_from next n vs.now }
{
    match vs {
        [] => true,
        [v, rest @ ..] => v.number == n && n < next && follow_from(rest, n + 1, next),
    }
}

// A disjunct of at most 64 atoms that fits.
fn short_fits(d: &Disjunct, defs: &Defs, free: &Scope, next: u32) -> bool
    ensures { result ≡ short_fits defs.now (in_scope free.now) next d.now }
{
    d.atoms.len() <= MAX_ATOMS && disjunct_fits(d, defs, free, next)
}

// A disjunct whose free variables are among `free`.
fn disjunct_fits(d: &Disjunct, defs: &Defs, free: &Scope, next: u32) -> bool
    ensures { result ≡ disjunct_fits defs.now (in_scope free.now) next d.now }
{
    let bound = d.bound.as_slice();
    let scope = Scope::WithAll(bound, &*free);
    are_distinct(bound)
        && bound_fits(bound, free, next)
        && atoms_fit(d.atoms.as_slice(), defs, &scope)
        && conjuncts_fit(d.pure.as_slice(), free, next, &scope)
}

fn bound_fits(bound: &[Var], free: &Scope, next: u32) -> bool
    ensures { result ≡ list_all (bound_fits (in_scope free.now) next) bound.now }
{
    bound.iter().all(|v| number_fits(*v, next) && !free.has(*v))
}

fn atoms_fit(atoms: &[Atom], defs: &Defs, scope: &Scope) -> bool
    ensures { result ≡ list_all (atom_fits defs.now (in_scope scope.now)) atoms.now }
{
    atoms.iter().all(|a| atom_fits(a, defs, scope))
}

fn conjuncts_fit(ps: &[Pure], free: &Scope, next: u32, scope: &Scope) -> bool
    ensures { result ≡ list_all (conjunct_fits (in_scope free.now) next (in_scope scope.now)) ps.now }
{
    ps.iter()
        .all(|p| !is_and(p) && plain_fits(p, free, next, scope))
}

fn are_distinct(vs: &[Var]) -> bool
    ensures { result ≡ are_distinct vs.now }
{
    match vs {
        [] => true,
        [v, rest @ ..] => !is_listed(rest, *v) && are_distinct(rest),
    }
}

fn atom_fits(a: &Atom, defs: &Defs, scope: &Scope) -> bool
    ensures { result ≡ atom_fits defs.now (in_scope scope.now) a.now }
{
    !a.root.bag
        && arguments_fit(a.of, a.args.as_slice(), defs)
        && scope.has(a.root)
        && are_in(a.args.as_slice(), scope)
}

fn atom_alone_fits(a: &Atom, defs: &Defs) -> bool
    ensures { result ≡ atom_alone_fits defs.now a.now }
{
    !a.root.bag && arguments_fit(a.of, a.args.as_slice(), defs)
}

fn are_in(vs: &[Var], scope: &Scope) -> bool
    ensures { result ≡ list_all (in_scope scope.now) vs.now }
{
    vs.iter().all(|v| scope.has(*v))
}

fn arguments_fit(of: Of, args: &[Var], defs: &Defs) -> bool
    ensures { result ≡ arguments_fit defs.now of args.now }
{
    match of {
        Of::Node(n) => is_like_node(defs.node(n), args),
        Of::Pred(n) => is_like_pred(defs.pred(n), args),
    }
}

// The arguments are as many as the fields, and numbers.
fn is_like_node(node: Option<&NodeDef>, args: &[Var]) -> bool
    ensures { result ≡ is_like_node (option_copied node.entry) args.now }
{
    match node {
        Some(node) => node.fields.len() == args.len() && are_numbers(args),
        None => false,
    }
}

fn are_numbers(vs: &[Var]) -> bool
    ensures { result ≡ list_all (λ v. not v.bag) vs.now }
{
    vs.iter().all(|v| !v.bag)
}

// The arguments are as many as the parameters, and of their kinds.
fn is_like_pred(pred: Option<&PredDef>, args: &[Var]) -> bool
    ensures { result ≡ is_like_pred (option_copied pred.entry) args.now }
{
    match pred {
        Some(pred) => same_kinds(pred.params.as_slice(), args),
        None => false,
    }
}

fn same_kinds(vs: &[Var], ws: &[Var]) -> bool
    ensures { result ≡ same_kinds vs.now ws.now }
{
    match vs {
        [] => ws.is_empty(),
        [v, vs @ ..] => match ws {
            [] => false,
            [w, ws @ ..] => v.bag == w.bag && same_kinds(vs, ws),
        },
    }
}
