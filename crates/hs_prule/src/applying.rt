//! Where a rule applies.

ghost use Rattle.std.specs.Prelude.{◌≡◌, ◌↔◌, IsTrue, MatchOption};
ghost use Rattle.hs_core.specs.declared.state.PRule.TheVariants.{Or};
ghost use Rattle.hs_core.specs.Sound.{IsSoundProgram};
ghost use Rattle.hs_program_rules.specs.States.{StateFits};
ghost use Rattle.hs_program_rules.specs.Table.{AppliesTo, IsRuleOf};
ghost use Rattle.hs_prule.specs.Steps.{called, IsApplied, IsCallThere};

use crate::access::{instruction, method};
use hs_core::{At, Instr, PRule, Program};
use hs_heap::Defs;
use hs_program_parts::reads_held;
use hs_sides::simple_case;

pub fn is_or(rule: PRule) -> bool
    ensures { IsTrue result ↔ (rule ≡ Or) }
{
    matches!(rule, PRule::Or)
}

// The pair of a rule of calls, by number from 1.
pub fn called(rule: PRule) -> u32
    ensures { result ≡ called rule }
{
    match rule {
        PRule::Call(i) => i,
        _ => 0,
    }
}

// Whether the rule is that of the instruction.
fn is_rule_of(program: &Program, instr: &Instr, rule: PRule) -> bool
    requires { IsCallThere program.now instr.now }
    ensures { IsTrue result ↔ IsRuleOf program.now instr.now rule }
{
    match instr {
        Instr::Assign(_, _) => matches!(rule, PRule::Assign),
        Instr::New(_, _, _) => matches!(rule, PRule::New),
        Instr::Get(_, _, _, _) => matches!(rule, PRule::Get),
        Instr::Set(_, _, _, _) => matches!(rule, PRule::Set),
        Instr::Branch(_, _) => matches!(rule, PRule::Branch),
        Instr::Jump(_) => matches!(rule, PRule::Jump),
        Instr::Call(_, callee, _) => match rule {
            PRule::Call(i) => 1 <= i && i as usize <= method(program, *callee).pairs.len(),
            _ => false,
        },
        Instr::Return(_) => matches!(rule, PRule::Return),
    }
}

// The next instruction, where the rule applies by it.
pub fn applied<'a>(program: &'a Program, defs: &Defs, at: &At, rule: PRule) -> Option<&'a Instr>
    requires sound { IsSoundProgram defs.now program.now }
    requires fits { StateFits defs.now program.now at.now }
    ensures { MatchOption result (¬ (AppliesTo program.now at.now rule)) (λ i. IsApplied program.now at.now rule i.now) }
{
    let instr = instruction(program, at);
    if simple_case(&at.state.formula).is_none() {
        return None;
    }
    if !is_rule_of(program, instr, rule) {
        return None;
    }
    if !reads_held(method(program, at.method), at.state.slots.as_slice(), instr) {
        return None;
    }
    Some(instr)
}
