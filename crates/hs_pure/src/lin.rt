ghost use Rattle.std.specs.Prelude.{◌≡◌, IfOk, OnOk};
ghost use Rattle.hs_pure.specs.Occurs.{in_lin, lin_top};
ghost use Rattle.hs_pure.specs.Rename.{renaming, renamed_lin, add_term, LinInRange, MergeFits};

use crate::var::renamed;
use crate::{NoMemory, Var};
use sqlite_items::Items;
use std::alloc::Global;
use std::cmp::max;

/// A sum of variables with coefficients, and a constant. The terms stand by rising number of their
/// variables, and no coefficient is 0.
#[derive(Debug, Drop)]
pub struct Lin {
    pub terms: Items<(Var, i128)>,
    pub constant: i128,
}

impl Lin {
    /// An equal sum.
    pub fn copy(&self, alloc: Global) -> Result<Lin, NoMemory>
        ensures { IfOk result (λ a. a ≡ self.now) }
    {
        Ok(Lin {
            terms: Items::from_slice(alloc, self.terms.as_slice())?,
            constant: self.constant,
        })
    }

    pub(crate) fn has(&self, v: Var) -> bool
        ensures { result ≡ in_lin v self.now }
    {
        self.terms.as_slice().iter().any(|t| t.0 == v)
    }

    pub(crate) fn top(&self) -> u32
        ensures { result ≡ lin_top self.now }
    {
        let mut top = 0;
        for t in self.terms.as_slice() {
            top = max(top, t.0.number);
        }
        top
    }

    /// The sum with each listed variable in the place of another, all at once.
    pub fn rename(&self, alloc: Global, map: &[(Var, Var)]) -> Result<Lin, NoMemory>
        requires { LinInRange (renaming map.now) self.now }
        ensures { IfOk result (λ a. a ≡ renamed_lin (renaming map.now) self.now) }
    {
        let mut terms = Vec::new(alloc);
        for t in self.terms.as_slice() {
            add_term(&mut terms, renamed(map, t.0), t.1)?;
        }
        Ok(Lin {
            terms: Items::from_vec(terms),
            constant: self.constant,
        })
    }
}

// Adds `c` times `v` to the sum, in order.
fn add_term(terms: &mut Vec<(Var, i128)>, v: Var, c: i128) -> Result<(), NoMemory>
    requires { MergeFits v c terms.old.items }
    ensures { OnOk result (terms.new.items ≡ add_term v c terms.old.items) }
{
    let mut i = 0;
    while i < terms.len() && terms[i].0.number < v.number {
        i += 1;
    }
    if i < terms.len() && terms[i].0 == v {
        let sum = terms[i].1 + c;
        if sum == 0 {
            terms.remove(i);
        } else {
            terms[i] = (v, sum);
        }
    } else {
        terms.insert(i, (v, c))?;
    }
    Ok(())
}
