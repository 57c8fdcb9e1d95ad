//! The numbers of the variables of one claim.

ghost use Rattle.std.specs.Prelude.{◌≡◌, true, []};
ghost use Rattle.hs_numbering.specs.Numbering as spec;
ghost use Rattle.hs_numbering.specs.Numbering.{Builds};

use crate::fault::{Fault, Limit, Problem};
use crate::name::{is_upper, numbered_var};
use crate::scope::Scope;
use hs_pure::{NoMemory, Pure, Var};
use hs_text::Text;
use hs_tree::Ident;
use sqlite_items::Items;
use std::alloc::Global;

/// A name and the variable that it names.
#[derive(Debug, Drop)]
pub struct Named {
    pub name: Text,
    pub var: Var,
}

/// How a name is read that is no binder around.
#[derive(Clone, Copy, Debug, PartialEq, Eq)]
pub enum Reading {
    /// A free name that is not known gets a number; `self` and `res` are unknown then.
    Open,
    /// A free name that is not known is unknown.
    Closed,
    /// The numbered form: a name is not looked up, it has its variable by itself, and no number is given.
    Numbered,
}

/// What is known of a claim when a part of its text has been read.
#[derive(Drop)]
pub struct Numbering {
    pub reading: Reading,
    /// The source names of the numbers given so far, the first that of number 1. There are at most 1000.
    pub names: Items<Option<Text>>,
    /// Names that no binder may have, as `self` and parameters.
    pub fixed: Scope,
    /// The other names that are free.
    pub known: Scope,
    /// The binders around, innermost last.
    pub around: Scope,
    /// The variables that the disjunct at hand binds beside those of its own names.
    pub flat: Items<Var>,
    /// The equations of those variables.
    pub equations: Items<Pure>,
    pub faults: Items<Fault>,
}

fn has_number(names: &[Named], number: u32) -> bool
    ensures { result ≡ spec.has_number number names.now }
{
    names.iter().any(|named| named.var.number == number)
}

// Whether a free name that is not known gets a number.
fn takes_new(reading: Reading, name: &Text) -> bool
    ensures { result ≡ spec.takes_new reading name.now }
{
    reading == Reading::Open && name.as_str() != "self" && name.as_str() != "res"
}

impl Numbering {
    /// The numbering at the beginning of a claim, with the faults of the text before it.
    pub fn start(alloc: Global, reading: Reading, faults: Items<Fault>) -> Numbering
        ensures { result ≡ spec.start reading faults }
    {
        Numbering {
            reading,
            names: Items::new(alloc),
            fixed: Scope::new(alloc),
            known: Scope::new(alloc),
            around: Scope::new(alloc),
            flat: Items::new(alloc),
            equations: Items::new(alloc),
            faults,
        }
    }

    /// The numbering at the beginning of the first claim.
    pub fn new(alloc: Global, reading: Reading) -> Numbering
        ensures { result ≡ spec.start reading [] }
    {
        Numbering::start(alloc, reading, Items::new(alloc))
    }

    /// Reads free names in another way from here on.
    pub fn read_as(&mut self, reading: Reading)
        ensures { (tt, self.new) ≡ spec.read_as reading self.old }
    {
        self.reading = reading;
    }

    /// The least number that is not given, at most 1001.
    pub fn next(&self) -> u32
        ensures { result ≡ spec.next self.now }
    {
        if self.names.len() >= 1000 {
            return 1001;
        }
        self.names.len() as u32 + 1
    }

    /// Notes a fault at this offset.
    pub fn blame(&mut self, at: u32, problem: Problem) -> Result<(), NoMemory>
        ensures { Builds (spec.blame at problem self.old) result self.new }
    {
        self.faults.push(Fault { at, problem })?;
        Ok(())
    }

    /// The next number, with this source name, of a variable that is first met at this offset. Number 1001 is
    /// a fault there, and so is each number in the numbered form; the answer is then the number 0.
    pub fn give(&mut self, name: Option<Text>, at: u32, bag: bool) -> Result<Var, NoMemory>
        ensures { Builds (spec.give name at bag self.old) result self.new }
    {
        if self.reading == Reading::Numbered {
            self.blame(at, Problem::Shape)?;
            return Ok(Var { number: 0, bag });
        }
        if self.names.len() >= 1000 {
            self.blame(at, Problem::TooMany(Limit::Vars))?;
            return Ok(Var { number: 0, bag });
        }
        self.names.push(name)?;
        Ok(Var {
            number: self.names.len() as u32,
            bag,
        })
    }

    /// The next number, with this name, which is not entered as a known one.
    pub fn give_named(&mut self, alloc: Global, ident: &Ident) -> Result<Var, NoMemory>
        ensures { Builds (spec.give_named ident.now self.old) result self.new }
    {
        let name = ident.text.copy(alloc)?;
        self.give(Some(name), ident.at, is_upper(&ident.text))
    }

    /// A number of its own for a name that no binder may have from here on.
    pub fn fix(&mut self, alloc: Global, ident: &Ident) -> Result<Var, NoMemory>
        ensures { Builds (spec.fix ident.now self.old) result self.new }
    {
        let var = self.give_named(alloc, ident)?;
        self.fixed.push(alloc, &ident.text, var)?;
        Ok(var)
    }

    /// The name is known from here on, and names this variable.
    pub fn learn(&mut self, alloc: Global, ident: &Ident, var: Var) -> Result<(), NoMemory>
        ensures { Builds (spec.learn ident.now var self.old) result self.new }
    {
        self.known.push(alloc, &ident.text, var)?;
        Ok(())
    }

    fn blame_unknown(&mut self, alloc: Global, ident: &Ident) -> Result<Var, NoMemory>
        ensures { Builds (spec.blame_unknown ident.now self.old) result self.new }
    {
        let name = ident.text.copy(alloc)?;
        self.blame(ident.at, Problem::Unknown(name))?;
        Ok(Var {
            number: 0,
            bag: is_upper(&ident.text),
        })
    }

    fn blame_twice(&mut self, alloc: Global, ident: &Ident) -> Result<(), NoMemory>
        ensures { Builds (spec.blame_twice ident.now true self.old) result self.new }
    {
        let name = ident.text.copy(alloc)?;
        self.blame(ident.at, Problem::Twice(name))
    }

    fn resolve_free(&mut self, alloc: Global, ident: &Ident) -> Result<Var, NoMemory>
        ensures { Builds (spec.resolve_free ident.now self.old) result self.new }
    {
        if takes_new(self.reading, &ident.text) {
            let var = self.give_named(alloc, ident)?;
            self.learn(alloc, ident, var)?;
            return Ok(var);
        }
        self.blame_unknown(alloc, ident)
    }

    fn resolve_name(&mut self, alloc: Global, ident: &Ident) -> Result<Var, NoMemory>
        ensures { Builds (spec.resolve_name ident.now self.old) result self.new }
    {
        if let Some(var) = self.around.last(&ident.text) {
            return Ok(var);
        }
        if let Some(var) = self.known.last(&ident.text) {
            return Ok(var);
        }
        if let Some(var) = self.fixed.last(&ident.text) {
            return Ok(var);
        }
        self.resolve_free(alloc, ident)
    }

    fn resolve_numbered(&mut self, alloc: Global, ident: &Ident) -> Result<Var, NoMemory>
        ensures { Builds (spec.resolve_numbered ident.now self.old) result self.new }
    {
        match numbered_var(&ident.text) {
            Some(var) => Ok(var),
            None => self.blame_unknown(alloc, ident),
        }
    }

    /// The variable of a name: that of the innermost binder, or of a known name, or a new one.
    #[tactic(auto, unfolding(crate::specs::Numbering::resolve))]
    pub fn resolve(&mut self, alloc: Global, ident: &Ident) -> Result<Var, NoMemory>
        ensures { Builds (spec.resolve ident.now self.old) result self.new }
    {
        if self.reading == Reading::Numbered {
            return self.resolve_numbered(alloc, ident);
        }
        self.resolve_name(alloc, ident)
    }

    fn bind_name(&mut self, alloc: Global, ident: &Ident) -> Result<Var, NoMemory>
        ensures { Builds (spec.bind_name ident.now self.old) result self.new }
    {
        if self.around.last(&ident.text).is_some() || self.fixed.last(&ident.text).is_some() {
            self.blame_twice(alloc, ident)?;
        }
        let var = self.give_named(alloc, ident)?;
        self.enter(alloc, ident, var)?;
        Ok(var)
    }

    fn bind_numbered(&mut self, alloc: Global, ident: &Ident) -> Result<Var, NoMemory>
        ensures { Builds (spec.bind_numbered ident.now self.old) result self.new }
    {
        let Some(var) = numbered_var(&ident.text) else {
            let var = self.blame_unknown(alloc, ident)?;
            self.enter(alloc, ident, var)?;
            return Ok(var);
        };
        if has_number(self.around.as_slice(), var.number) {
            self.blame_twice(alloc, ident)?;
        }
        self.enter(alloc, ident, var)?;
        Ok(var)
    }

    /// A new binder, which is then the innermost. One that is around already is a fault, and so is a fixed
    /// name.
    #[tactic(auto, unfolding(crate::specs::Numbering::bind))]
    pub fn bind(&mut self, alloc: Global, ident: &Ident) -> Result<Var, NoMemory>
        ensures { Builds (spec.bind ident.now self.old) result self.new }
    {
        if self.reading == Reading::Numbered {
            return self.bind_numbered(alloc, ident);
        }
        self.bind_name(alloc, ident)
    }

    /// Makes the variable that the name binds the innermost binder.
    pub fn enter(&mut self, alloc: Global, ident: &Ident, var: Var) -> Result<(), NoMemory>
        ensures { Builds (spec.enter ident.now var self.old) result self.new }
    {
        self.around.push(alloc, &ident.text, var)?;
        Ok(())
    }

    /// Leaves the innermost binder.
    #[tactic(auto, unfolding(crate::specs::Numbering::leave))]
    pub fn leave(&mut self)
        ensures { (tt, self.new) ≡ spec.leave self.old }
    {
        self.around.pop();
    }

    /// Leaves a binder for each of these names.
    pub fn leave_all(&mut self, names: &[Ident])
        ensures { (tt, self.new) ≡ spec.leave_all names.now self.old }
    {
        for _name in names {
            self.leave();
        }
    }

    /// A new variable that the disjunct at hand binds.
    pub fn give_bound(&mut self, at: u32, bag: bool) -> Result<Var, NoMemory>
        ensures { Builds (spec.give_bound at bag self.old) result self.new }
    {
        let v = self.give(None, at, bag)?;
        self.flat.push(v)?;
        Ok(v)
    }

    /// An equation of such a variable.
    pub fn equate(&mut self, equation: Pure) -> Result<(), NoMemory>
        ensures { Builds (spec.equate equation self.old) result self.new }
    {
        self.equations.push(equation)?;
        Ok(())
    }

    /// Takes the variables that the disjunct at hand binds beside those of its own names.
    pub fn take_flat(&mut self, alloc: Global) -> Items<Var>
        ensures { (result, self.new) ≡ spec.take_flat self.old }
    {
        std::mem::replace(&mut self.flat, Items::new(alloc))
    }

    /// Takes their equations.
    pub fn take_equations(&mut self, alloc: Global) -> Items<Pure>
        ensures { (result, self.new) ≡ spec.take_equations self.old }
    {
        std::mem::replace(&mut self.equations, Items::new(alloc))
    }
}
