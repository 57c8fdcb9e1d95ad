ghost use Rattle.std.specs.Prelude.{◌≡◌, IfOk};

use crate::copies::{copy_code, copy_methods, copy_pairs};
use crate::instr::Instr;
use hs_heap::Formula;
use hs_pure::{Lin, NoMemory, Var};
use hs_text::Text;
use sqlite_items::Items;
use std::alloc::Global;

/// A precondition and a postcondition. The parameters are the variables from 1 on; after them stand that of the
/// result and one for each reference parameter. All numbers are below `next`.
#[derive(Debug, Drop)]
pub struct Pair {
    pub pre: Formula,
    pub post: Formula,
    pub logic: Items<Var>,
    pub next: u32,
    pub variant: Option<Lin>,
}

impl Pair {
    /// An equal pair.
    pub fn copy(&self, alloc: Global) -> Result<Pair, NoMemory>
        ensures same { IfOk result (λ p. p ≡ self.now) }
    {
        let variant = match &self.variant {
            None => None,
            Some(term) => Some(term.copy(alloc)?),
        };
        Ok(Pair {
            pre: self.pre.copy(alloc)?,
            post: self.post.copy(alloc)?,
            logic: Items::from_slice(alloc, self.logic.as_slice())?,
            next: self.next,
            variant,
        })
    }
}

/// A method. Its slots are numbered from 1, its parameters first; `refs` are the numbers of its reference
/// parameters, rising.
#[derive(Debug, Drop)]
pub struct Method {
    pub name: Text,
    pub params: u32,
    pub slots: u32,
    pub result: bool,
    pub pairs: Items<Pair>,
    pub code: Items<Instr>,
    pub refs: Items<u32>,
}

impl Method {
    /// An equal method.
    pub fn copy(&self, alloc: Global) -> Result<Method, NoMemory>
        ensures same { IfOk result (λ m. m ≡ self.now) }
    {
        Ok(Method {
            name: self.name.copy(alloc)?,
            params: self.params,
            slots: self.slots,
            result: self.result,
            pairs: copy_pairs(alloc, self.pairs.as_slice())?,
            code: copy_code(alloc, self.code.as_slice())?,
            refs: Items::from_slice(alloc, self.refs.as_slice())?,
        })
    }
}

/// A program: methods, by number from 1.
#[derive(Debug, Drop)]
pub struct Program {
    pub methods: Items<Method>,
}

impl Program {
    /// An equal program.
    pub fn copy(&self, alloc: Global) -> Result<Program, NoMemory>
        ensures same { IfOk result (λ p. p ≡ self.now) }
    {
        Ok(Program {
            methods: copy_methods(alloc, self.methods.as_slice())?,
        })
    }
}
