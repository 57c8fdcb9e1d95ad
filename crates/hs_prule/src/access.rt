//! Methods, pairs and instructions by number.

ghost use Rattle.std.specs.Prelude.{◌≡◌, ◌<◌, Some, length};
ghost use Rattle.hs_core.specs.Machine.{method_of};
ghost use Rattle.hs_core.specs.Sound.{IsUpTo};
ghost use Rattle.hs_program_rules.specs.States.{pair_of, method_at, instruction_at};

use hs_core::{At, Instr, Method, Pair, Program};

// The method of a number from 1.
pub fn method(program: &Program, number: u32) -> &Method
    requires { IsUpTo (length program.now.methods) number }
    ensures { result.now ≡ method_of program.now number }
{
    &program.methods.as_slice()[number as usize - 1]
}

// The pair of a number from 1.
pub fn pair(m: &Method, number: u32) -> &Pair
    requires { IsUpTo (length m.now.pairs) number }
    ensures { result.now ≡ pair_of m.now number }
{
    &m.pairs.as_slice()[number as usize - 1]
}

// The instruction that is next at a state.
pub fn instruction<'a>(program: &'a Program, at: &At) -> &'a Instr
    requires method { IsUpTo (length program.now.methods) at.now.method }
    requires point { at.now.point < length (method_at program.now at.now).code }
    ensures { instruction_at program.now at.now ≡ Some result.now }
{
    &method(program, at.method).code.as_slice()[at.point as usize]
}
