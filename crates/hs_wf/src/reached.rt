//! What is reached in a case.

ghost use Rattle.std.specs.Prelude.{◌≡◌, ◌↔◌, true, IfOk};
ghost use Rattle.hs_pure.specs.declared.var.Var.{Var};
ghost use Rattle.hs_heap.specs.Meaning.{is_in};
ghost use Rattle.hs_wf.specs.Founded.{IsReached};
ghost use Rattle.hs_wf.specs.Links.{Followed};
ghost use Rattle.hs_wf.specs.Marked.{is_marked};

use crate::links::case_links;
use crate::marks::Marks;
use hs_heap::Disjunct;
use hs_pure::{NoMemory, Var};
use std::alloc::Global;

// Follows the links that begin at marked variables, and answers those that wait.
fn follow(
    alloc: Global,
    marks: &mut Marks,
    links: &[(Var, Var)],
) -> Result<Vec<(Var, Var)>, NoMemory>
    ensures { IfOk result (λ waiting. Followed (is_marked marks.old) (is_marked marks.new) links.now waiting.items) }
{
    let mut waiting = Vec::new(alloc);
    for link in links {
        if marks.has(link.0) {
            marks.mark(link.1)?;
        } else {
            waiting.push(*link)?;
        }
    }
    Ok(waiting)
}

fn mark_all(alloc: Global, names: &[Var]) -> Result<Marks, NoMemory>
    ensures { IfOk result (λ marks. (v : Var) → is_marked marks v ≡ is_in v names.now) }
{
    let mut marks = Marks::new(alloc);
    for v in names {
        marks.mark(*v)?;
    }
    Ok(marks)
}

/// The variables that are reached in a case from these names.
pub fn reached(alloc: Global, names: &[Var], case: &Disjunct) -> Result<Marks, NoMemory>
    ensures { IfOk result (λ marks. (v : Var) → (is_marked marks v ≡ true) ↔ IsReached names.now case.now v) }
{
    let mut marks = mark_all(alloc, names)?;
    let mut links = case_links(alloc, case)?;
    'following: loop {
        let waiting = follow(alloc, &mut marks, &links)?;
        if waiting.len() == links.len() {
            return Ok(marks);
        }
        links = waiting;
    }
}
