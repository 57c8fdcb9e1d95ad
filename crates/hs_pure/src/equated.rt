//! Equations between variables.

ghost use Rattle.std.specs.Prelude.{◌≡◌, IfOk};
ghost use Rattle.hs_pure.specs.Equated as spec;

use crate::{Lin, NoMemory, Pure, Var};
use sqlite_items::Items;
use std::alloc::Global;

impl Lin {
    /// A variable as a sum.
    pub fn variable(alloc: Global, v: Var) -> Result<Lin, NoMemory>
        ensures { IfOk result (λ a. a ≡ spec.variable_sum v) }
    {
        let mut terms = Items::new(alloc);
        terms.push((v, 1))?;
        Ok(Lin { terms, constant: 0 })
    }

    /// The variable that the sum is, with the coefficient 1 and nothing added. It takes no memory.
    pub fn single(&self) -> Option<Var>
        ensures { result ≡ spec.single self.now }
    {
        if self.constant != 0 {
            return None;
        }
        match self.terms.as_slice() {
            [t] if t.1 == 1 => Some(t.0),
            _ => None,
        }
    }
}

impl Pure {
    /// The two variables that the formula equates, where it is an equation of two variables. It takes no memory.
    pub fn equated(&self) -> Option<(Var, Var)>
        ensures { result ≡ spec.equated self.now }
    {
        let Pure::Eq(a, b) = self else {
            return None;
        };
        match (a.single(), b.single()) {
            (Some(a), Some(b)) => Some((a, b)),
            _ => None,
        }
    }
}
