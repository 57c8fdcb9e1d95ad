//! Rows: what is known of the value of a sum.

ghost use Rattle.std.specs.Prelude.{◌≡◌, ◌↔◌, ◌+ℤ◌, ◌*ℤ◌, ◌≤ℤ◌, ◌<ℤ◌, pos, IfOk, IfSome, IsTrue};
ghost use Rattle.std.specs.List.{All};
ghost use Rattle.hs_pure.specs.Stack.{Stack};
ghost use Rattle.hs_pure.specs.Truth.{sum_at, value};
ghost use Rattle.hs_equations.specs.Rows.{Says, IsMet, IsSolved, IsEven};

use crate::halt::Halt;
use crate::linear::{combined, divide, divided_terms};
use hs_cooper_forms::coefficient;
use hs_pure::{Lin, Var};
use sqlite_items::Items;
use std::alloc::Global;

/// What is known of a number.
#[derive(Clone, Copy, Debug, PartialEq, Eq)]
pub(crate) enum Kind {
    /// It is 0.
    Zero,
    /// It is at least 0.
    Least,
    /// It is not 0.
    Apart,
}

impl Kind {
    // Whether a number is as the kind says.
    pub(crate) fn says(self, z: i128) -> bool
        ensures { IsTrue result ↔ Says self z }
    {
        match self {
            Kind::Zero => z == 0,
            Kind::Least => z >= 0,
            Kind::Apart => z != 0,
        }
    }
}

/// What is known of the value of a sum.
#[derive(Debug, Drop)]
pub(crate) struct Row {
    pub(crate) kind: Kind,
    pub(crate) sum: Lin,
}

/// A sum that is 0, in which the pivot has the coefficient 1.
#[derive(Debug, Drop)]
pub(crate) struct Solved {
    pub(crate) pivot: Var,
    pub(crate) sum: Lin,
}

// The value of a sum without variables.
pub(crate) fn fixed(a: &Lin) -> Option<i128>
    ensures { IfSome result (λ z. (s : Stack) → value s a.now ≡ z) }
{
    if a.terms.is_empty() {
        Some(a.constant)
    } else {
        None
    }
}

impl Row {
    // An equal row.
    pub(crate) fn copy(&self, alloc: Global) -> Result<Row, Halt>
        ensures { IfOk result (λ r. r ≡ self.now) }
    {
        Ok(Row {
            kind: self.kind,
            sum: self.sum.copy(alloc)?,
        })
    }

    // Whether the row is false at all stacks, as it has no variables.
    pub(crate) fn is_false(&self) -> bool
        ensures { IsTrue result → (s : Stack) → ¬ (IsMet s self.now) }
    {
        match fixed(&self.sum) {
            Some(z) => !self.kind.says(z),
            None => false,
        }
    }

    // Whether it has no variables.
    pub(crate) fn is_fixed(&self) -> bool {
        self.sum.terms.is_empty()
    }
}

// A greatest common divisor of the coefficients, or 0 where they pass 127 bits.
fn divisor(terms: &[(Var, i128)]) -> i128 {
    let mut g: u128 = 0;
    for t in terms {
        g = common(g, t.1.unsigned_abs());
    }
    match i128::try_from(g) {
        Ok(g) => g,
        Err(_) => 0,
    }
}

// The greatest common divisor of two numbers.
pub(crate) fn common(mut a: u128, mut b: u128) -> u128 {
    'steps: while b != 0 {
        let rest = a % b;
        a = b;
        b = rest;
    }
    a
}

// The row with the greatest common divisor of its coefficients taken out.
pub(crate) fn divided(alloc: Global, row: Row) -> Result<Row, Halt>
    ensures { IfOk result (λ r. (s : Stack) → IsMet s row → IsMet s r) }
{
    let g = divisor(row.sum.terms.as_slice());
    if g <= 1 {
        return Ok(row);
    }
    divided_by(alloc, g, &row)
}

// Whether a division that leaves `rest` of the constant says the same.
fn is_even(kind: Kind, rest: i128) -> bool
    ensures { IsTrue result ↔ IsEven kind rest }
{
    match kind {
        Kind::Least => true,
        Kind::Zero => rest == 0,
        Kind::Apart => rest == 0,
    }
}

// The row with a divisor of its coefficients taken out.
fn divided_by(alloc: Global, g: i128, row: &Row) -> Result<Row, Halt>
    requires { pos 0 <ℤ g }
    ensures { IfOk result (λ r. (s : Stack) → IsMet s row.now → IsMet s r) }
{
    let terms = divided_terms(alloc, g, row.sum.terms.as_slice())?;
    let Some(cut) = divide(row.sum.constant, g) else {
        return Err(Halt::Spent);
    };
    if is_even(row.kind, cut.rest) {
        let sum = Lin {
            terms,
            constant: cut.whole,
        };
        Ok(Row {
            kind: row.kind,
            sum,
        })
    } else {
        Ok(uneven(alloc, row.kind))
    }
}

// What is left of a row that is not even: that 1 is 0, or that it is not.
fn uneven(alloc: Global, kind: Kind) -> Row
    ensures kind { result.kind ≡ kind }
    ensures value { (s : Stack) → value s result.sum ≡ pos 1 }
{
    let sum = Lin {
        terms: Items::new(alloc),
        constant: 1,
    };
    Row { kind, sum }
}

// The sum with the pivot replaced, if it has it.
pub(crate) fn without_pivot(alloc: Global, e: &Solved, a: Lin) -> Result<Lin, Halt>
    ensures { IfOk result (λ r. (s : Stack) → IsSolved s e.now → value s r ≡ value s a) }
{
    let c = coefficient(&a, e.pivot);
    if c == 0 {
        return Ok(a);
    }
    match c.checked_neg() {
        Some(k) => combined(alloc, k, &e.sum, &a),
        None => Err(Halt::Spent),
    }
}

// The sum with each pivot replaced.
pub(crate) fn without_pivots(alloc: Global, solved: &[Solved], a: Lin) -> Result<Lin, Halt>
    ensures { IfOk result (λ r. (s : Stack) → All (IsSolved s) solved.now → value s r ≡ value s a) }
{
    let mut sum = a;
    for e in solved {
        sum = without_pivot(alloc, e, sum)?;
    }
    Ok(sum)
}

// The row with each pivot replaced, and divided.
pub(crate) fn reduced(alloc: Global, solved: &[Solved], row: Row) -> Result<Row, Halt>
    ensures { IfOk result (λ r. (s : Stack) → All (IsSolved s) solved.now → IsMet s row → IsMet s r) }
{
    let Row { kind, sum } = row;
    let sum = without_pivots(alloc, solved, sum)?;
    divided(alloc, Row { kind, sum })
}
