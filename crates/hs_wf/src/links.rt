//! The links of a case: from the root of a node to its arguments, and both ways between equated variables.

ghost use Rattle.std.specs.Prelude.{◌≡◌, ◌++◌, OnOk, IfOk};
ghost use Rattle.hs_wf.specs.Links as spec;

use hs_heap::{Atom, Disjunct, Of};
use hs_pure::{NoMemory, Pure, Var};
use std::alloc::Global;

fn push_arguments(links: &mut Vec<(Var, Var)>, root: Var, args: &[Var]) -> Result<(), NoMemory>
    ensures { OnOk result (links.new.items ≡ links.old.items ++ spec.links_to root args.now) }
{
    for arg in args {
        links.push((root, *arg))?;
    }
    Ok(())
}

fn push_atom(links: &mut Vec<(Var, Var)>, atom: &Atom) -> Result<(), NoMemory>
    ensures { OnOk result (links.new.items ≡ links.old.items ++ spec.atom_links atom.now) }
{
    match atom.of {
        Of::Node(_) => push_arguments(links, atom.root, atom.args.as_slice()),
        Of::Pred(_) => Ok(()),
    }
}

fn push_conjunct(links: &mut Vec<(Var, Var)>, p: &Pure) -> Result<(), NoMemory>
    ensures { OnOk result (links.new.items ≡ links.old.items ++ spec.equation_links p.now) }
{
    if let Some((v, w)) = p.equated() {
        links.push((v, w))?;
        links.push((w, v))?;
    }
    Ok(())
}

pub fn case_links(alloc: Global, case: &Disjunct) -> Result<Vec<(Var, Var)>, NoMemory>
    ensures { IfOk result (λ links. links.items ≡ spec.case_links case.now) }
{
    let mut links = Vec::new(alloc);
    for atom in case.atoms.as_slice() {
        push_atom(&mut links, atom)?;
    }
    for p in case.pure.as_slice() {
        push_conjunct(&mut links, p)?;
    }
    Ok(links)
}
