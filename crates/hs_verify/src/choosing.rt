//! Which rules a state has.

ghost use Rattle.std.specs.Prelude.{◌≡◌, Some, ◌<◌, length, IfOk};
ghost use Rattle.hs_core.specs.Machine.{method_of};
ghost use Rattle.hs_core.specs.Sound.{IsUpTo};
ghost use Rattle.hs_program_rules.specs.States.{method_at, instruction_at};
ghost use Rattle.hs_verify.specs.Asked.{IsReady, IsChoice, IsChoiceAt};

use hs_core::{At, Instr, Method, PRule, Program};
use hs_program_fits::simple_states_have_rules;
use hs_pure::NoMemory;
use hs_sides::simple_case;

// The one rule of a state, or how many pairs of the called method it can be by.
#[derive(Clone, Copy)]
pub enum Choice {
    By(PRule),
    Pairs(u32),
}

// The method of a number from 1.
fn method(program: &Program, number: u32) -> &Method
    requires { IsUpTo (length program.now.methods) number }
    ensures { result.now ≡ method_of program.now number }
{
    &program.methods.as_slice()[number as usize - 1]
}

// The instruction that is next at a state.
fn instruction<'a>(program: &'a Program, at: &At) -> &'a Instr
    requires method { IsUpTo (length program.now.methods) at.now.method }
    requires point { at.now.point < length (method_at program.now at.now).code }
    ensures { instruction_at program.now at.now ≡ Some result.now }
{
    &method(program, at.method).code.as_slice()[at.point as usize]
}

// The count as a number of 32 bits.
pub fn number_of(count: usize) -> Result<u32, NoMemory>
    ensures { IfOk result (λ n. n ≡ count) }
{
    match u32::try_from(count) {
        Ok(number) => Ok(number),
        Err(_) => Err(NoMemory),
    }
}

// How many pairs the method of a number has; one that is not there has none.
fn pairs_of(program: &Program, number: u32) -> Result<u32, NoMemory>
    ensures { IfOk result (λ n. n ≡ length (method_of program.now number).pairs) }
{
    if number == 0 {
        return Ok(0);
    }
    match program.methods.get(number as usize - 1) {
        Some(method) => {
            let count = number_of(method.pairs.len())?;
            Ok(count)
        }
        None => Ok(0),
    }
}

// The rule of an instruction, or how many pairs the method has that it calls.
fn choice_at(program: &Program, instr: &Instr) -> Result<Choice, NoMemory>
    ensures { IfOk result (IsChoiceAt program.now instr.now) }
{
    match instr {
        Instr::Assign(_, _) => Ok(Choice::By(PRule::Assign)),
        Instr::New(_, _, _) => Ok(Choice::By(PRule::New)),
        Instr::Get(_, _, _, _) => Ok(Choice::By(PRule::Get)),
        Instr::Set(_, _, _, _) => Ok(Choice::By(PRule::Set)),
        Instr::Branch(_, _) => Ok(Choice::By(PRule::Branch)),
        Instr::Jump(_) => Ok(Choice::By(PRule::Jump)),
        Instr::Call(_, method, _) => Ok(Choice::Pairs(pairs_of(program, *method)?)),
        Instr::Return(_) => Ok(Choice::By(PRule::Return)),
    }
}

// The one rule of a state, or how many pairs it can be by.
pub fn choose(program: &Program, at: &At) -> Result<Choice, NoMemory>
    requires { IsReady program.now at.now }
    ensures { IfOk result (IsChoice program.now at.now) }
{
    simple_states_have_rules();
    match simple_case(&at.state.formula) {
        None => Ok(Choice::By(PRule::Or)),
        Some(_) => {
            let choice = choice_at(program, instruction(program, at))?;
            Ok(choice)
        }
    }
}
