ghost use Rattle.std.specs.Prelude.{◌≡◌, IfOk};

use hs_pure::{Lin, NoMemory, Pure};
use sqlite_items::Items;
use std::alloc::Global;

/// An instruction. Slots, data types, fields and methods are numbered from 1, instructions from 0. In a term or a
/// condition slot k is the number variable k.
#[derive(Debug, Drop)]
pub enum Instr {
    /// Puts the value of a term into a slot.
    Assign(u32, Lin),
    /// Makes a node of a data type, whose fields are the values of slots, and puts its location into a slot.
    New(u32, u32, Items<u32>),
    /// Puts into the first slot the field of the node, of that data type, at the location in the second.
    Get(u32, u32, u32, u32),
    /// Puts into the field of the node, of that data type, at the location in the first slot the value of the last.
    Set(u32, u32, u32, u32),
    /// Goes on where the condition is true, and to the instruction else.
    Branch(Pure, u32),
    Jump(u32),
    /// Calls a method on the values of slots, and puts its result into a slot.
    Call(Option<u32>, u32, Items<u32>),
    Return(Option<u32>),
}

impl Instr {
    /// An equal instruction.
    pub fn copy(&self, alloc: Global) -> Result<Instr, NoMemory>
        ensures same { IfOk result (λ i. i ≡ self.now) }
    {
        match self {
            Instr::Assign(to, term) => Ok(Instr::Assign(*to, term.copy(alloc)?)),
            Instr::New(to, node, args) => {
                let args = Items::from_slice(alloc, args.as_slice())?;
                Ok(Instr::New(*to, *node, args))
            }
            Instr::Get(to, at, node, field) => Ok(Instr::Get(*to, *at, *node, *field)),
            Instr::Set(at, node, field, from) => Ok(Instr::Set(*at, *node, *field, *from)),
            Instr::Branch(condition, other) => Ok(Instr::Branch(condition.copy(alloc)?, *other)),
            Instr::Jump(target) => Ok(Instr::Jump(*target)),
            Instr::Call(to, method, args) => {
                let args = Items::from_slice(alloc, args.as_slice())?;
                Ok(Instr::Call(*to, *method, args))
            }
            Instr::Return(from) => Ok(Instr::Return(*from)),
        }
    }
}
