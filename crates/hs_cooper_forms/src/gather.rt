//! Members of a conjunction or disjunction, gathered one by one.

ghost use Rattle.std.specs.Prelude.{◌≡◌, OnOk, OnErr, IsErrOf};
ghost use Rattle.hs_elimination.specs.Form.{const};
ghost use Rattle.hs_cooper_forms.specs.Reading.{form_of, unit, join, IsCanonical};
ghost use Rattle.hs_cooper_forms.specs.Gathering.{gathered, HasProper};
ghost use Rattle.hs_cooper_forms.specs.declared.refusal.Refusal.TheVariants.{Memory};

use crate::nnf::{Connective, Nnf};
use crate::refusal::Refusal;
use sqlite_items::Items;
use std::alloc::Global;

/// Members so far. True and false are no members: they go, or decide the whole.
#[derive(Debug, Drop)]
pub struct Gathered {
    pub connective: Connective,
    pub members: Items<Nnf>,
    pub decided: bool,
}

impl Gathered {
    /// No members yet.
    pub fn new(alloc: Global, connective: Connective) -> Gathered
        ensures same { result.connective ≡ connective }
        ensures form { gathered result ≡ const (unit connective) }
        ensures proper { HasProper result }
    {
        Gathered {
            connective,
            members: Items::new(alloc),
            decided: false,
        }
    }

    /// Joins one more member.
    pub fn add(&mut self, f: Nnf) -> Result<(), Refusal>
        requires canonical { IsCanonical f }
        requires proper { HasProper self.old }
        ensures same { OnOk result (self.new.connective ≡ self.old.connective) }
        ensures form { OnOk result (gathered self.new ≡ join self.old.connective (gathered self.old) (form_of f)) }
        ensures proper { OnOk result (HasProper self.new) }
        ensures memory { OnErr result (IsErrOf result Memory) }
    {
        if self.decided {
            return Ok(());
        }
        match f {
            Nnf::Truth(b) => {
                if b != self.connective.unit() {
                    self.decided = true;
                }
            }
            Nnf::Literal(l) => self.members.push(Nnf::Literal(l))?,
            Nnf::Joined(c, fs) => self.members.push(Nnf::Joined(c, fs))?,
        }
        Ok(())
    }

    /// The whole.
    pub fn finish(self) -> Nnf
        requires { HasProper self }
        ensures form { form_of result ≡ gathered self }
        ensures canonical { IsCanonical result }
    {
        let Gathered {
            connective,
            mut members,
            decided,
        } = self;
        if decided {
            return Nnf::Truth(!connective.unit());
        }
        match members.len() {
            0 => Nnf::Truth(connective.unit()),
            1 => members.remove(0),
            _ => Nnf::Joined(connective, members),
        }
    }
}
