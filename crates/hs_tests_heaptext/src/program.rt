//! A core program: that of the method that appends a list, and a method of every further instruction.

use hs_core::{Instr, Method, Program};
use hs_pure::{Lin, NoMemory, Pure, Var};
use hs_text::Text;
use sqlite_items::Items;
use std::alloc::Global;

fn numbers(alloc: Global, list: &[u32]) -> Result<Items<u32>, NoMemory> {
    Ok(Items::from_slice(alloc, list)?)
}

fn slot(number: u32) -> Var {
    Var { number, bag: false }
}

fn term(alloc: Global, terms: &[(Var, i128)], constant: i128) -> Result<Lin, NoMemory> {
    Ok(Lin {
        terms: Items::from_slice(alloc, terms)?,
        constant,
    })
}

fn is_null(alloc: Global, number: u32) -> Result<Pure, NoMemory> {
    let left = term(alloc, &[(slot(number), 1)], 0)?;
    Ok(Pure::Eq(left, term(alloc, &[], 0)?))
}

fn method(
    alloc: Global,
    name: &str,
    params: u32,
    slots: u32,
    gives: bool,
    code: Items<Instr>,
    refs: &[u32],
) -> Result<Method, NoMemory> {
    Ok(Method {
        name: Text::from_str(alloc, name)?,
        params,
        slots,
        result: gives,
        pairs: Items::new(alloc),
        code,
        refs: numbers(alloc, refs)?,
    })
}

fn append(alloc: Global) -> Result<Method, NoMemory> {
    let mut code = Items::new(alloc);
    code.push(Instr::Get(3, 1, 1, 2))?;
    code.push(Instr::Branch(is_null(alloc, 3)?, 4))?;
    code.push(Instr::Set(1, 1, 2, 2))?;
    code.push(Instr::Jump(5))?;
    code.push(Instr::Call(None, 1, numbers(alloc, &[3, 2])?))?;
    code.push(Instr::Return(None))?;
    method(alloc, "append", 2, 3, false, code, &[])
}

fn others(alloc: Global) -> Result<Method, NoMemory> {
    let mut code = Items::new(alloc);
    let sum = term(alloc, &[(slot(1), -1), (slot(2), 2)], -7)?;
    code.push(Instr::Assign(10, sum))?;
    code.push(Instr::Assign(2, term(alloc, &[], -5)?))?;
    code.push(Instr::New(3, 1, numbers(alloc, &[2, 10])?))?;
    code.push(Instr::New(3, 4, Items::new(alloc)))?;
    code.push(Instr::Call(Some(1), 2, Items::new(alloc)))?;
    code.push(Instr::Return(Some(10)))?;
    method(alloc, "others", 2, 10, true, code, &[1, 2])
}

pub fn program(alloc: Global) -> Result<Program, NoMemory> {
    let mut methods = Items::new(alloc);
    methods.push(append(alloc)?)?;
    methods.push(others(alloc)?)?;
    Ok(Program { methods })
}
