ghost use Rattle.std.specs.Prelude.{◌≡◌, ◌||◌, ◌==◌, false, [], IfOk, OnOk, slice_index_or};
ghost use Rattle.hs_pure.specs.Stack.{same};
ghost use Rattle.hs_pure.specs.declared.var.Var.{Var};
ghost use Rattle.hs_wf.specs.Marked.{is_marked};

use hs_pure::{NoMemory, Var};
use std::alloc::Global;

/// A set of variables, looked up in constant time. It takes room for the greatest number.
#[derive(Drop)]
pub struct Marks {
    numbers: Vec<bool>,
    bags: Vec<bool>,
}

fn is_set(table: &[bool], place: u32) -> bool
    ensures { result ≡ slice_index_or table.now place false }
{
    table.get(place as usize).copied().unwrap_or(false)
}

fn set(table: &mut Vec<bool>, place: u32) -> Result<(), NoMemory>
    ensures { OnOk result ((k : _) → slice_index_or table.new.items k false ≡ (k == place || slice_index_or table.old.items k false)) }
{
    let place = place as usize;
    if place >= table.len() {
        table.resize(place + 1, false)?;
    }
    table[place] = true;
    Ok(())
}

impl Marks {
    /// No variable.
    pub fn new(alloc: Global) -> Marks
        ensures { (v : Var) → is_marked result v ≡ false }
    {
        Marks {
            numbers: Vec::new(alloc),
            bags: Vec::new(alloc),
        }
    }

    pub fn has(&self, v: Var) -> bool
        ensures { result ≡ is_marked self.now v }
    {
        if v.bag {
            is_set(&self.bags, v.number)
        } else {
            is_set(&self.numbers, v.number)
        }
    }

    pub fn mark(&mut self, v: Var) -> Result<(), NoMemory>
        ensures { OnOk result ((w : Var) → is_marked self.new w ≡ (same w v || is_marked self.old w)) }
    {
        if v.bag {
            set(&mut self.bags, v.number)
        } else {
            set(&mut self.numbers, v.number)
        }
    }
}
