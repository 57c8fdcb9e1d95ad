//! Whether the slots that an instruction reads hold variables.

ghost use Rattle.std.specs.Prelude.{◌≡◌, ◌↔◌, IsTrue, map};
ghost use Rattle.std.specs.List.{list_all};
ghost use Rattle.hs_core.specs.declared.instr.Instr.TheVariants.{Return};
ghost use Rattle.hs_program_rules.specs.Table.{ReadsHeld};
ghost use Rattle.hs_program_parts.specs.Reading.{is_held, lin_held, bag_held, all_slots, instr_held};

use crate::slots::{are_held, is_held};
use hs_core::{Instr, Method};
use hs_pure::{Bag, Lin, Pure, Var};

/// Whether each slot that the instruction reads holds a variable. A return reads the reference parameters too.
pub fn reads_held(m: &Method, held: &[Option<Var>], instr: &Instr) -> bool
    ensures exact { IsTrue result ↔ ReadsHeld m.now held.now instr.now }
{
    instr_held(m, held, instr)
}

fn instr_held(m: &Method, held: &[Option<Var>], instr: &Instr) -> bool
    ensures { result ≡ instr_held held.now m.now.refs instr.now }
{
    match instr {
        Instr::Assign(_, term) => lin_held(term, held),
        Instr::New(_, _, args) => are_held(held, args.as_slice()),
        Instr::Get(_, slot, _, _) => is_held(held, *slot),
        Instr::Set(slot, _, _, from) => is_held(held, *slot) && is_held(held, *from),
        Instr::Branch(condition, _) => all_slots(condition, held),
        Instr::Jump(_) => true,
        Instr::Call(_, _, args) => are_held(held, args.as_slice()),
        Instr::Return(from) => return_held(m, held, *from),
    }
}

fn return_held(m: &Method, held: &[Option<Var>], from: Option<u32>) -> bool
    ensures { result ≡ instr_held held.now m.now.refs (Return from) }
{
    match from {
        Some(from) => is_held(held, from) && are_held(held, m.refs.as_slice()),
        None => are_held(held, m.refs.as_slice()),
    }
}

fn lin_held(a: &Lin, held: &[Option<Var>]) -> bool
    ensures { result ≡ lin_held held.now a.now }
{
    a.terms.as_slice().iter().all(|t| is_held(held, t.0.number))
}

fn bag_held(b: &Bag, held: &[Option<Var>]) -> bool
    ensures { result ≡ bag_held held.now b.now }
{
    match b {
        Bag::Empty => true,
        Bag::Name(_) => true,
        Bag::One(a) => lin_held(a, held),
        Bag::Union(a, b) => bag_held(a.get(), held) && bag_held(b.get(), held),
        Bag::Inter(a, b) => bag_held(a.get(), held) && bag_held(b.get(), held),
        Bag::Diff(a, b) => bag_held(a.get(), held) && bag_held(b.get(), held),
    }
}

// Whether the slots of each sum of the formula hold variables.
#[cycle(all_slots)]
fn all_slots(p: &Pure, held: &[Option<Var>]) -> bool
    ensures { result ≡ all_slots held.now p.now }
{
    match p {
        Pure::Eq(a, b) => lin_held(a, held) && lin_held(b, held),
        Pure::Lt(a, b) => lin_held(a, held) && lin_held(b, held),
        Pure::Le(a, b) => lin_held(a, held) && lin_held(b, held),
        Pure::Divides(_, a) => lin_held(a, held),
        Pure::BagEq(a, b) => bag_held(a, held) && bag_held(b, held),
        Pure::Subset(a, b) => bag_held(a, held) && bag_held(b, held),
        Pure::Member(a, b) => lin_held(a, held) && bag_held(b, held),
        Pure::AllOf(_, b, p) => bag_held(b, held) && all_slots(p.get(), held),
        Pure::Not(p) => all_slots(p.get(), held),
        Pure::And(ps) => each_slots(ps.as_slice(), held),
        Pure::Or(ps) => each_slots(ps.as_slice(), held),
        Pure::Exists(_, p) => all_slots(p.get(), held),
        Pure::Forall(_, p) => all_slots(p.get(), held),
    }
}

#[cycle(all_slots)]
fn each_slots(ps: &[Pure], held: &[Option<Var>]) -> bool
    ensures { result ≡ list_all (λ b. b) (map (all_slots held.now) ps.now) }
{
    for p in ps {
        if !all_slots(p, held) {
            return false;
        }
    }
    true
}
