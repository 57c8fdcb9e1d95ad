//! The calls and their answers.
ghost use Rattle.std.specs.Prelude.{◌≡◌};
ghost use Rattle.hs_heap.specs.Sound.{IsSound};
ghost use Rattle.hs_goal.specs.Shape.{GoalFits};
ghost use Rattle.hs_rules.specs.Subgoals.{subgoals_of};
ghost use Rattle.hs_rules.specs.Rules.{Applies};
ghost use Rattle.hs_question.specs.Steps.{HasResidue};

use crate::given::NoRow;
use hs_erule::{NodeAnswer, Reason, RuleError, question, residue, right, subgoals};
use hs_goal::{ERule, Goal, Question, classes};
use hs_heap::{Atom, Defs, Disjunct, Formula};
use hs_print::{numbered_formula, numbered_pure};
use hs_pure::Var;
use hs_sides::{copy_atoms, only, simple_case};
use hs_xpure::XError;
use sqlite_items::Items;
use std::alloc::Global;

const MOST_ATOMS: u64 = 1 << 30;

// Adds variables, each after a blank.
fn push_variables(out: &mut String, vs: &[Var]) -> Result<(), NoRow> {
    let mut first = true;
    for v in vs {
        if !first {
            write!(out, ",")?;
        }
        first = false;
        push_variable(out, *v)?;
    }
    Ok(())
}

fn push_variable(out: &mut String, v: Var) -> Result<(), NoRow> {
    let number = v.number;
    let letter = if v.bag { 'V' } else { 'v' };
    write!(out, " {letter}{number}")?;
    Ok(())
}

fn atoms_alone(alloc: Global, atoms: &[Atom]) -> Result<Formula, NoRow> {
    let case = Disjunct {
        bound: Items::new(alloc),
        atoms: copy_atoms(alloc, atoms)?,
        pure: Items::new(alloc),
    };
    Ok(only(alloc, case)?)
}

/// The parts of a goal.
pub fn push_goal(alloc: Global, out: &mut String, defs: &Defs, goal: &Goal) -> Result<(), NoRow> {
    let used = atoms_alone(alloc, goal.used.as_slice())?;
    let used = numbered_formula(alloc, &used, defs)?;
    let left = numbered_formula(alloc, &goal.left, defs)?;
    let right = numbered_formula(alloc, &goal.right, defs)?;
    let next = goal.next;
    let looked = u8::from(goal.looked);
    write!(out, "used {used} ; left {left} ; opens")?;
    push_variables(out, goal.opens.as_slice())?;
    write!(out, " ; right {right} ; next {next} ; looked {looked}\n")?;
    Ok(())
}

/// Whether the goal is well formed.
pub fn push_shape(alloc: Global, out: &mut String, defs: &Defs, goal: &Goal) -> Result<(), NoRow> {
    if goal.shape(alloc, defs)? {
        write!(out, "  well formed\n")?;
    } else {
        write!(out, "  not well formed\n")?;
    }
    Ok(())
}

/// Whether two variables are in one class.
pub fn push_class(
    alloc: Global,
    out: &mut String,
    goal: &Goal,
    a: Var,
    b: Var,
) -> Result<(), NoRow> {
    let Some(_case) = simple_case(&goal.left) else {
        return Err(NoRow);
    };
    if classes(alloc, goal)?.same(a, b) {
        write!(out, "  one class\n")?;
    } else {
        write!(out, "  two classes\n")?;
    }
    Ok(())
}

fn push_subgoals(alloc: Global, out: &mut String, defs: &Defs, subs: &[Goal]) -> Result<(), NoRow> {
    for sub in subs {
        write!(out, "  subgoal ")?;
        push_goal(alloc, out, defs, sub)?;
    }
    Ok(())
}

fn push_asked(alloc: Global, out: &mut String, q: &Question) -> Result<(), NoRow> {
    let left = numbered_pure(alloc, &q.left)?;
    let right = numbered_pure(alloc, &q.right)?;
    write!(out, "  asks {left} |- {right}\n")?;
    Ok(())
}

// What a rule asks.
fn push_question(
    alloc: Global,
    out: &mut String,
    defs: &Defs,
    goal: &Goal,
    rule: &ERule,
) -> Result<(), NoRow>
    requires sound { IsSound defs.now }
    requires fits { GoalFits defs.now goal.now }
    requires applies { Applies defs.now goal.now rule.now }
{
    match question(alloc, defs, goal, rule) {
        Ok(None) => Ok(()),
        Ok(Some(q)) => {
            let q = Box::new(alloc, q)?;
            push_asked(alloc, out, &q)
        }
        Err(XError::Numbers) => {
            write!(out, "  numbers spent\n")?;
            Ok(())
        }
        Err(XError::Memory) => Err(NoRow),
    }
}

fn push_residue(
    alloc: Global,
    out: &mut String,
    defs: &Defs,
    goal: &Goal,
    rule: &ERule,
    residues: &[Formula],
) -> Result<(), NoRow>
    requires { HasResidue goal.now rule.now residues.now }
{
    let residue = residue(alloc, goal, rule, residues)?;
    let text = numbered_formula(alloc, &residue, defs)?;
    write!(out, "  residue {text}\n")?;
    Ok(())
}

// Of a rule that applies to a well-formed goal.
fn push_rest(
    alloc: Global,
    out: &mut String,
    defs: &Defs,
    goal: &Goal,
    rule: &ERule,
    subs: &[Goal],
    residues: &[Formula],
) -> Result<(), NoRow>
    requires sound { IsSound defs.now }
    requires fits { GoalFits defs.now goal.now }
    requires applies { Applies defs.now goal.now rule.now }
    requires subs { subs.now ≡ subgoals_of defs.now goal.now rule.now }
{
    push_subgoals(alloc, out, defs, subs)?;
    push_question(alloc, out, defs, goal, rule)?;
    if residues.len() == subs.len() {
        push_residue(alloc, out, defs, goal, rule, residues)?;
    }
    Ok(())
}

fn push_applied(
    alloc: Global,
    out: &mut String,
    defs: &Defs,
    goal: &Goal,
    rule: &ERule,
    residues: &[Formula],
) -> Result<(), NoRow>
    requires sound { IsSound defs.now }
    requires fits { GoalFits defs.now goal.now }
{
    match subgoals(alloc, defs, goal, rule) {
        Ok(subs) => push_rest(alloc, out, defs, goal, rule, subs.as_slice(), residues),
        Err(RuleError::NotApplicable) => {
            write!(out, "  not applicable\n")?;
            Ok(())
        }
        Err(RuleError::Memory) => Err(NoRow),
    }
}

/// The subgoals of a rule, what it asks, and its residue, if there is one residue for each subgoal.
pub fn push_rule(
    alloc: Global,
    out: &mut String,
    defs: &Defs,
    goal: &Goal,
    rule: &ERule,
    residues: &[Formula],
) -> Result<(), NoRow> {
    if !defs.sound() || !goal.shape(alloc, defs)? {
        return Err(NoRow);
    }
    push_applied(alloc, out, defs, goal, rule, residues)
}

fn reason_word(reason: Reason) -> &'static str {
    match reason {
        Reason::Shape => "wrong shape",
        Reason::Rule => "wrong rule",
        Reason::Premise => "wrong premise",
        Reason::Residue => "wrong residue",
        Reason::Question => "wrong question",
    }
}

fn verdict_word(answer: NodeAnswer) -> &'static str {
    match answer {
        NodeAnswer::Right => "right",
        NodeAnswer::Wrong(reason) => reason_word(reason),
        NodeAnswer::Numbers => "numbers spent",
        NodeAnswer::Atoms => "atoms spent",
        NodeAnswer::Wide => "past 128 bits",
    }
}

/// Whether a step is right.
pub fn push_verdict(
    alloc: Global,
    out: &mut String,
    defs: &Defs,
    goal: &Goal,
    residue: &Formula,
    rule: &ERule,
    premises: &[(Goal, Formula)],
    atoms: u64,
) -> Result<(), NoRow> {
    if atoms > MOST_ATOMS || !defs.sound() {
        return Err(NoRow);
    }
    let answer = right(alloc, defs, goal, residue, rule, premises, atoms)?;
    let word = verdict_word(answer);
    write!(out, "  {word}\n")?;
    Ok(())
}
