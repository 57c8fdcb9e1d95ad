//! The classes of a goal.

ghost use Rattle.std.specs.Prelude.{IfOk};
ghost use Rattle.hs_goal.specs.Classes.{the_case, IsSimple};
ghost use Rattle.hs_goal.specs.Tables.{AreClasses};

use crate::goal::Goal;
use crate::table::Classes;
use hs_pure::NoMemory;
use std::alloc::Global;

/// The classes of variables that the left conjuncts of a goal join, where its left side is simple. Of the conjuncts,
/// equations between two variables alone join.
pub fn classes(alloc: Global, goal: &Goal) -> Result<Classes, NoMemory>
    requires { IsSimple goal.now.left }
    ensures exact { IfOk result (λ c. AreClasses (the_case goal.now.left).pure c) }
{
    match goal.left.cases.get(0) {
        Some(case) => Classes::of(alloc, case.pure.as_slice()),
        None => Classes::of(alloc, &[]),
    }
}
