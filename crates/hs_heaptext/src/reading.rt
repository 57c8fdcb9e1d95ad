//! Reading a heap text.

ghost use Rattle.std.specs.Prelude.{◌≡◌, ◌+◌, ◌<◌, ◌^◌, ℤ, ℕ, pos, List, length, codes, IfOk, IfErr, MatchOption, MatchResult};
ghost use Rattle.hs_heaptext.specs.Lines.{FirstLine, HasNoLine};
ghost use Rattle.hs_heaptext.specs.Values.{AreSmall};
ghost use Rattle.hs_heaptext.specs.Text.{args_text, entries_text};
ghost use Rattle.hs_heaptext.specs.Laws.{NamesAreWords, NamesDiffer};
ghost use Rattle.hs_heap.specs.Heap.{Heap};
ghost use Rattle.hs_heaptext.specs.declared.error.HeapTextError.TheVariants.{Memory};
ghost use Rattle.hs_heaptext.specs.Reading.{States, IsAnswer, IsArgsLine, IsEntriesAnswer, EntriesFit};

use crate::entry::entry;
use crate::error::HeapTextError;
use crate::line::{behind, first_line};
use crate::values::values;
use hs_heap::{Defs, Heap};
use hs_pure::NoMemory;
use sqlite_items::Items;
use std::alloc::Global;

// What stands behind the first line.
fn after_version(bytes: &[u8]) -> Option<&[u8]>
    ensures { MatchOption result (HasNoLine (λ line. line ≡ codes "heap 1") bytes.now) (λ text. FirstLine bytes.now (codes "heap 1") text.now) }
{
    let (line, text) = first_line(bytes)?;
    if line != b"heap 1".as_slice() {
        return None;
    }
    Some(text)
}

// The arguments of a line.
fn args(alloc: Global, line: &[u8]) -> Result<Option<Items<i128>>, NoMemory>
    ensures { IfOk result (λ found. MatchOption found (¬ (IsArgsLine line.now)) (λ xs. AreSmall xs × (line.now ≡ args_text xs))) }
{
    let Some(text) = behind(line, b"args") else {
        return Ok(None);
    };
    values(alloc, text)
}

// The heap of the lines of its nodes, of which the first has the number 3.
fn entries(alloc: Global, defs: &Defs, text: &[u8]) -> Result<Heap, HeapTextError>
    requires few { length defs.now.nodes < 2 ^ 32 }
    requires short { length text.now + 3 < 2 ^ 32 }
    ensures found { IfOk result (λ h. (text.now ≡ entries_text defs.now h) × EntriesFit defs.now (pos 0) h) }
    ensures cause { IfErr result (λ e. IsEntriesAnswer defs.now text.now e) }
{
    let mut heap = Heap::new(alloc);
    let mut low = 0;
    let mut number = 3;
    let mut rest = text;
    while !rest.is_empty() {
        let Some((line, behind)) = first_line(rest) else {
            return Err(HeapTextError::Line(number));
        };
        let Some((place, node)) = entry(alloc, defs, low, line)? else {
            return Err(HeapTextError::Line(number));
        };
        heap.put(place, node)?;
        low = place;
        number += 1;
        rest = behind;
    }
    Ok(heap)
}

// The parts one after another: the first line, the arguments, the nodes.
fn parts(alloc: Global, defs: &Defs, bytes: &[u8]) -> Result<(Items<i128>, Heap), HeapTextError>
    requires few { length defs.now.nodes < 2 ^ 32 }
    requires short { length bytes.now < 2 ^ 32 }
    ensures found { IfOk result (λ r. States defs.now bytes.now r.0 r.1) }
    ensures cause { IfErr result (λ e. IsAnswer defs.now bytes.now e) }
{
    let Some(text) = after_version(bytes) else {
        return Err(HeapTextError::Line(1));
    };
    let Some((line, rest)) = first_line(text) else {
        return Err(HeapTextError::Line(2));
    };
    let Some(args) = args(alloc, line)? else {
        return Err(HeapTextError::Line(2));
    };
    let heap = entries(alloc, defs, rest)?;
    Ok((args, heap))
}

/// The arguments and the heap that a text states, or the number, from 1, of its first line that is not of its form.
/// The text has fewer than 2^32 bytes, and there are fewer than 2^32 data types. Where their names are pairwise
/// different and hold neither a blank nor a line feed, what a text states is read, and nothing else.
pub fn read_heap(
    alloc: Global,
    defs: &Defs,
    bytes: &[u8],
) -> Result<(Items<i128>, Heap), HeapTextError>
    requires few { length defs.now.nodes < 2 ^ 32 }
    requires short { length bytes.now < 2 ^ 32 }
    ensures found { IfOk result (λ r. States defs.now bytes.now r.0 r.1) }
    ensures cause { IfErr result (λ e. IsAnswer defs.now bytes.now e) }
    ensures back { NamesAreWords defs.now → NamesDiffer defs.now → (args : List ℤ) (h : Heap) → States defs.now bytes.now args h → MatchResult result (λ r. (r.0 ≡ args) × (r.1 ≡ h)) (λ e. e ≡ Memory) }
{
    parts(alloc, defs, bytes)
}
