//! The parts of a node's line behind its rule, which stand between semicolons. Each begins with its word.

ghost use Rattle.std.specs.Prelude.{◌≡◌, ◌<◌, ◌^◌, length, IfOk};
ghost use Rattle.hs_line.specs.Pieces.{AreShort};
ghost use Rattle.hs_line.specs.Scan as scan;
ghost use Rattle.hs_line.specs.Steps.{Reads, ReadsAs, ReadsOn};
ghost use Rattle.hs_dtext.specs.Formulas as formulas;
ghost use Rattle.hs_dtext.specs.Parts as spec;

use crate::formulas::{formula, heap};
use hs_heap::{Atom, Defs, Formula};
use hs_line::{Fault, Pieces, Rest, Stop, number_alone, numbers, slots, variables};
use hs_pure::Var;
use sqlite_items::Items;
use std::alloc::Global;

// The rest of the next part, behind its word.
fn behind_word<'a>(parts: &mut Pieces<'a>, word: &[u8]) -> Result<&'a [u8], Fault>
    requires short { AreShort parts.old }
    ensures exact { ReadsAs (λ r. r.now) (spec.behind_word word.now parts.old) result parts.new }
    ensures within { IfOk result (λ r. length r.now < 2 ^ 32) }
    ensures short { AreShort parts.new }
{
    let Some(text) = parts.next() else {
        return Err(Fault::Word);
    };
    let mut rest = Rest::new(text);
    rest.word(word)?;
    Ok(rest.bytes())
}

pub fn number_after(parts: &mut Pieces<'_>, word: &[u8]) -> Result<u32, Fault>
    requires short { AreShort parts.old }
    ensures exact { Reads (spec.number_after word.now parts.old) result parts.new }
    ensures short { AreShort parts.new }
{
    let rest = behind_word(parts, word)?;
    number_alone(rest)
}

pub fn numbers_after(alloc: Global, parts: &mut Pieces<'_>, word: &[u8]) -> Result<Items<u32>, Stop>
    requires short { AreShort parts.old }
    ensures exact { ReadsOn (spec.numbers_after word.now parts.old) result parts.new }
    ensures short { AreShort parts.new }
{
    let rest = behind_word(parts, word)?;
    numbers(alloc, rest)
}

pub fn variables_after(
    alloc: Global,
    parts: &mut Pieces<'_>,
    word: &[u8],
) -> Result<Items<Var>, Stop>
    requires short { AreShort parts.old }
    ensures exact { ReadsOn (spec.after word.now (scan.listed scan.variable) parts.old) result parts.new }
    ensures short { AreShort parts.new }
{
    let rest = behind_word(parts, word)?;
    variables(alloc, rest)
}

pub fn slots_after(
    alloc: Global,
    parts: &mut Pieces<'_>,
    word: &[u8],
) -> Result<Items<Option<Var>>, Stop>
    requires short { AreShort parts.old }
    ensures exact { ReadsOn (spec.after word.now scan.slots parts.old) result parts.new }
    ensures short { AreShort parts.new }
{
    let rest = behind_word(parts, word)?;
    slots(alloc, rest)
}

pub fn nothing_after(parts: &mut Pieces<'_>, word: &[u8]) -> Result<(), Fault>
    requires short { AreShort parts.old }
    ensures exact { Reads (spec.after word.now scan.over parts.old) result parts.new }
    ensures short { AreShort parts.new }
{
    let rest = behind_word(parts, word)?;
    Rest::new(rest).over()
}

fn flag(number: u32) -> Result<bool, Fault>
    ensures { result ≡ spec.flag number }
{
    match number {
        0 => Ok(false),
        1 => Ok(true),
        _ => Err(Fault::Number),
    }
}

pub fn flag_after(parts: &mut Pieces<'_>, word: &[u8]) -> Result<bool, Fault>
    requires short { AreShort parts.old }
    ensures exact { Reads (spec.flag_after word.now parts.old) result parts.new }
    ensures short { AreShort parts.new }
{
    let rest = behind_word(parts, word)?;
    flag(number_alone(rest)?)
}

pub fn formula_after(
    alloc: Global,
    defs: &Defs,
    parts: &mut Pieces<'_>,
    word: &[u8],
) -> Result<Formula, Stop>
    requires short { AreShort parts.old }
    ensures exact { ReadsOn (spec.after word.now (formulas.formula defs.now) parts.old) result parts.new }
    ensures short { AreShort parts.new }
{
    let rest = behind_word(parts, word)?;
    formula(alloc, defs, rest)
}

pub fn heap_after(
    alloc: Global,
    defs: &Defs,
    parts: &mut Pieces<'_>,
    word: &[u8],
) -> Result<Items<Atom>, Stop>
    requires short { AreShort parts.old }
    ensures exact { ReadsOn (spec.after word.now (formulas.heap defs.now) parts.old) result parts.new }
    ensures short { AreShort parts.new }
{
    let rest = behind_word(parts, word)?;
    heap(alloc, defs, rest)
}

pub fn no_more(parts: &mut Pieces<'_>) -> Result<(), Fault>
    ensures { Reads (spec.no_more parts.old) result parts.new }
{
    match parts.next() {
        Some(_) => Err(Fault::Word),
        None => Ok(()),
    }
}
