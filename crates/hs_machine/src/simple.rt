//! Instructions that stay in their frame.

ghost use Rattle.std.specs.Prelude.{◌≡◌, ◌-◌, pos, length, slice_set, IfOk, IfSome, IfNone, false};
ghost use Rattle.std.specs.List.{All};
ghost use Rattle.hs_pure.specs.Eval.{has_quantifiers};
ghost use Rattle.hs_core.specs.Machine.{numbered, HasNode};
ghost use Rattle.hs_core.specs.Sound.{IsUpTo};
ghost use Rattle.hs_core.specs.declared.instr.Instr.TheVariants as instr_of;
ghost use Rattle.hs_machine.specs.Read.{FindsNode, NodesHave, TermsAreSlots, HasRoom, CanDo, Did};

use crate::arena::Arena;
use crate::frame::Frame;
use hs_core::Instr;
use hs_heap::HeapNode;
use hs_pure::{Lin, NoMemory, Pure};
use sqlite_items::Items;
use std::alloc::Global;

// What became of an instruction.
#[derive(Debug, Drop)]
pub enum Turn {
    Done,
    Returned(Option<i128>, Items<i128>),
    Fault(i128),
    Wide,
}

// The node of the data type at the place.
fn node_at(heap: &Arena, place: i128, kind: u32) -> Option<&HeapNode>
    ensures there { IfSome result (λ n. FindsNode heap.now place kind n.now) }
    ensures missing { IfNone result (HasNode heap.now place kind → ⊥) }
{
    let node = heap.get(place)?;
    if node.of == kind { Some(node) } else { None }
}

// The field of a node.
fn field_of(node: &HeapNode, field: u32) -> i128
    requires { IsUpTo (length node.now.values) field }
    ensures { result ≡ numbered node.now.values field (pos 0) }
{
    node.values.as_slice()[field as usize - 1]
}

// The node with a value in the field.
fn changed(alloc: Global, node: &HeapNode, field: u32, value: i128) -> Result<HeapNode, NoMemory>
    requires { IsUpTo (length node.now.values) field }
    ensures { IfOk result (λ n. n ≡ record (node.now) { values = slice_set node.now.values (field - 1) value }) }
{
    let mut node = node.copy(alloc)?;
    node.values.set(field as usize - 1, value);
    Ok(node)
}

fn assign(frame: &mut Frame, heap: &Arena, to: u32, term: &Lin) -> Turn
    requires room { HasRoom frame.old }
    requires slots { IsUpTo (length frame.old.slots) to × TermsAreSlots (length frame.old.slots) term.now.terms }
    ensures { Did (instr_of.Assign to term.now) frame.old heap.now result frame.new heap.now }
{
    match frame.value(term) {
        Ok(value) => {
            frame.put(to, value);
            Turn::Done
        }
        Err(_) => Turn::Wide,
    }
}

fn create(
    alloc: Global,
    frame: &mut Frame,
    heap: &mut Arena,
    to: u32,
    kind: u32,
    args: &[u32],
) -> Result<Turn, NoMemory>
    requires room { HasRoom frame.old }
    requires slots { IsUpTo (length frame.old.slots) to × All (IsUpTo (length frame.old.slots)) args.now }
    ensures { IfOk result (λ turn. Did (instr_of.New to kind args.now) frame.old heap.old turn frame.new heap.new) }
{
    let values = frame.get_all(alloc, args)?;
    let place = heap.free_place();
    heap.put(place, HeapNode { of: kind, values })?;
    frame.put(to, place);
    Ok(Turn::Done)
}

fn read(frame: &mut Frame, heap: &Arena, to: u32, at: u32, kind: u32, field: u32) -> Turn
    requires room { HasRoom frame.old }
    requires slots { IsUpTo (length frame.old.slots) to × IsUpTo (length frame.old.slots) at }
    requires fields { NodesHave heap.now kind field }
    ensures { Did (instr_of.Get to at kind field) frame.old heap.now result frame.new heap.now }
{
    let place = frame.get(at);
    let Some(node) = node_at(heap, place, kind) else {
        return Turn::Fault(place);
    };
    frame.put(to, field_of(node, field));
    Turn::Done
}

fn write(
    alloc: Global,
    frame: &mut Frame,
    heap: &mut Arena,
    at: u32,
    kind: u32,
    field: u32,
    from: u32,
) -> Result<Turn, NoMemory>
    requires room { HasRoom frame.old }
    requires slots { IsUpTo (length frame.old.slots) at × IsUpTo (length frame.old.slots) from }
    requires fields { NodesHave heap.old kind field }
    ensures { IfOk result (λ turn. Did (instr_of.Set at kind field from) frame.old heap.old turn frame.new heap.new) }
{
    let place = frame.get(at);
    let value = frame.get(from);
    let Some(node) = node_at(heap, place, kind) else {
        return Ok(Turn::Fault(place));
    };
    let node = changed(alloc, node, field, value)?;
    heap.rises();
    heap.put(place, node)?;
    frame.advance();
    Ok(Turn::Done)
}

fn branch(
    alloc: Global,
    frame: &mut Frame,
    heap: &Arena,
    condition: &Pure,
    other: u32,
) -> Result<Turn, NoMemory>
    requires room { HasRoom frame.old }
    requires no_quantifiers { has_quantifiers condition.now ≡ false }
    ensures { IfOk result (λ turn. Did (instr_of.Branch condition.now other) frame.old heap.now turn frame.new heap.now) }
{
    let slots = frame.valuation(alloc)?;
    match condition.eval(&slots) {
        Ok(holds) => {
            frame.point = if holds { frame.point + 1 } else { other };
            Ok(Turn::Done)
        }
        Err(_) => Ok(Turn::Wide),
    }
}

fn jump(frame: &mut Frame, heap: &Arena, target: u32) -> Turn
    ensures { Did (instr_of.Jump target) frame.old heap.now result frame.new heap.now }
{
    frame.point = target;
    Turn::Done
}

// An instruction that stays in its frame.
pub fn simple(
    alloc: Global,
    instr: &Instr,
    frame: &mut Frame,
    heap: &mut Arena,
) -> Result<Turn, NoMemory>
    requires room { HasRoom frame.old }
    requires can { CanDo instr.now (length frame.old.slots) heap.old }
    ensures { IfOk result (λ turn. Did instr.now frame.old heap.old turn frame.new heap.new) }
{
    match instr {
        Instr::Assign(to, term) => Ok(assign(frame, heap, *to, term)),
        Instr::New(to, kind, args) => create(alloc, frame, heap, *to, *kind, args.as_slice()),
        Instr::Get(to, at, kind, field) => Ok(read(frame, heap, *to, *at, *kind, *field)),
        Instr::Set(at, kind, field, from) => write(alloc, frame, heap, *at, *kind, *field, *from),
        Instr::Branch(condition, other) => branch(alloc, frame, heap, condition, *other),
        Instr::Jump(target) => Ok(jump(frame, heap, *target)),
        Instr::Call(_, _, _) | Instr::Return(_) => unreachable!(),
    }
}
