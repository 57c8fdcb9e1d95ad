//! Changes of each literal of a formula, with the result evaluated.

ghost use Rattle.std.specs.Prelude.{◌≡◌, ◌⊎◌, ◌^◌, ◌*◌, ◌<◌, ◌/◌, map, MatchOption, pos, IfOk, IfSome, IsErrOf, SomeIff, unsigned_abs};
ghost use Rattle.std.specs.List.{Contains};
ghost use Rattle.hs_elimination.specs.Linear.{place, plus, times, number, single, coefficient, rest, IsWideLin};
ghost use Rattle.hs_elimination.specs.Form.{const, IsWide};
ghost use Rattle.hs_elimination.specs.Normal.{evaluate};
ghost use Rattle.hs_elimination.specs.Scaling.{scale};
ghost use Rattle.hs_elimination.specs.Cases.{substitute, substitute_lin, minus_infinity};
ghost use Rattle.hs_cooper_forms.specs.Sign.{sign};
ghost use Rattle.hs_cooper_forms.specs.Reading.{form_of, literal_form, joined, IsCanonical};
ghost use Rattle.hs_cooper_forms.specs.Changing.{changed, ChangeFits, IsRefused, HasUneven, IsOneOrNone, relation_times, RelationFits, sign_unit};
ghost use Rattle.hs_cooper_forms.specs.declared.refusal.Refusal.TheVariants.{Wide};
ghost use Rattle.hs_cooper_forms.specs.declared.nnf.Nnf.{Nnf};

use crate::gather::Gathered;
use crate::linear::{add, coefficient, constant, rest, single, times};
use crate::nnf::{Connective, Literal, Nnf, Relation, evaluated};
use crate::refusal::Refusal;
use crate::sign::Sign;
use hs_pure::{Lin, Var};
use std::alloc::Global;

/// What is done to a literal.
#[derive(Debug, Drop)]
pub enum Change {
    /// The coefficient of the variable becomes 1 or -1, where it stands for its multiple by the number.
    Scale(Var, u128),
    /// The sum takes the place of the variable, whose coefficients are 1, -1 and 0.
    Substitute(Var, Lin),
    /// The number takes the place of the variable in the minus-infinity form.
    Low(Var, u64),
}

fn sign_of(c: i128) -> Sign
    ensures { sign result ≡ sign_unit c }
{
    if c < 0 { Sign::Minus } else { Sign::Plus }
}

// A divisor times `q`, if it is a number of the program.
fn divisor_times(d: u128, q: u128) -> Option<u128>
    ensures { SomeIff result (d * q < 2 ^ 127) (d * q) }
{
    match d.checked_mul(q) {
        Some(product) if product < 1 << 127 => Some(product),
        _ => None,
    }
}

fn scale_relation(r: Relation, q: u128) -> Option<Relation>
    ensures { SomeIff result (RelationFits (relation_times q r)) (relation_times q r) }
{
    match r {
        Relation::Positive => Some(Relation::Positive),
        Relation::Multiple(d) => match divisor_times(d, q) {
            Some(d) => Some(Relation::Multiple(d)),
            None => None,
        },
        Relation::NoMultiple(d) => match divisor_times(d, q) {
            Some(d) => Some(Relation::NoMultiple(d)),
            None => None,
        },
    }
}

// `q` times the sum without its terms of `x`, and `x` with the coefficient 1 or -1.
fn scale_sum(alloc: Global, x: Var, unit: Sign, q: u128, a: &Lin) -> Result<Lin, Refusal>
    requires { q < 2 ^ 127 }
    ensures sum { IfOk result (λ r. r ≡ plus (single x (sign unit)) (times (pos q) (rest (place x) a.now))) }
    ensures wide { IsErrOf result Wide → IsWideLin (plus (single x (sign unit)) (times (pos q) (rest (place x) a.now))) }
    ensures narrow { IfOk result (λ _. ¬ (IsWideLin (plus (single x (sign unit)) (times (pos q) (rest (place x) a.now))))) }
{
    let others = rest(alloc, a, x)?;
    let product = times(alloc, q as i128, &others)?;
    let own = single(alloc, x, unit)?;
    add(alloc, Sign::Plus, &own, &product)
}

fn scale(alloc: Global, x: Var, by: u128, l: &Literal) -> Result<Literal, Refusal>
    requires { by < 2 ^ 127 }
    ensures form { IfOk result (λ r. literal_form r ≡ scale by x (literal_form l.now)) }
    ensures wide { IsErrOf result Wide → IsWide (scale by x (literal_form l.now)) }
    ensures narrow { IfOk result (λ _. IsWide (scale by x (literal_form l.now)) → IsWide (literal_form l.now)) }
{
    let c = coefficient(&l.sum, x);
    if c == 0 {
        return Ok(Literal {
            relation: l.relation,
            sum: l.sum.copy(alloc)?,
        });
    }
    let q = by / c.unsigned_abs();
    let Some(relation) = scale_relation(l.relation, q) else {
        return Err(Refusal::Wide);
    };
    Ok(Literal {
        relation,
        sum: scale_sum(alloc, x, sign_of(c), q, &l.sum)?,
    })
}

fn substitute_sum(alloc: Global, x: Var, u: &Lin, a: &Lin) -> Result<Lin, Refusal>
    ensures sum { IfOk result (λ r. r ≡ substitute_lin (place x) u.now a.now) }
    ensures wide { IsErrOf result Wide → IsWideLin (substitute_lin (place x) u.now a.now) ⊎ (¬ (IsOneOrNone (coefficient (place x) a.now.terms))) }
    ensures narrow { IfOk result (λ _. IsWideLin (substitute_lin (place x) u.now a.now) → IsWideLin a.now) }
{
    let others = rest(alloc, a, x)?;
    match coefficient(a, x) {
        0 => Ok(others),
        1 => add(alloc, Sign::Plus, u, &others),
        -1 => add(alloc, Sign::Minus, u, &others),
        _ => Err(Refusal::Wide),
    }
}

fn substitute(alloc: Global, x: Var, u: &Lin, l: &Literal) -> Result<Literal, Refusal>
    ensures form { IfOk result (λ r. literal_form r ≡ substitute (place x) u.now (literal_form l.now)) }
    ensures wide { IsErrOf result Wide → IsWide (substitute (place x) u.now (literal_form l.now)) ⊎ HasUneven (place x) (literal_form l.now) }
    ensures narrow { IfOk result (λ _. IsWide (substitute (place x) u.now (literal_form l.now)) → IsWide (literal_form l.now)) }
{
    Ok(Literal {
        relation: l.relation,
        sum: substitute_sum(alloc, x, u, &l.sum)?,
    })
}

/// What a literal is at all small numbers of the variable, true or false; none where it stays as it is there.
pub fn at_low(l: &Literal, x: Var) -> Option<bool>
    ensures { MatchOption result (minus_infinity (place x) (literal_form l.now) ≡ literal_form l.now)
        (λ b. minus_infinity (place x) (literal_form l.now) ≡ const b) }
{
    match l.relation {
        Relation::Positive => {
            let c = coefficient(&l.sum, x);
            if c == 0 { None } else { Some(c < 0) }
        }
        Relation::Multiple(_) | Relation::NoMultiple(_) => None,
    }
}

fn change_literal(alloc: Global, change: &Change, l: &Literal) -> Result<Nnf, Refusal>
    requires { ChangeFits change.now }
    ensures form { IfOk result (λ r. form_of r ≡ evaluate (changed change.now (literal_form l.now))) }
    ensures canonical { IfOk result IsCanonical }
    ensures wide { IsErrOf result Wide → IsRefused change.now (literal_form l.now) }
    ensures narrow { IfOk result (λ _. IsWide (changed change.now (literal_form l.now)) → IsWide (literal_form l.now)) }
{
    match change {
        Change::Scale(x, by) => Ok(evaluated(scale(alloc, *x, *by, l)?)),
        Change::Substitute(x, u) => Ok(evaluated(substitute(alloc, *x, u, l)?)),
        Change::Low(x, j) => match at_low(l, *x) {
            Some(b) => Ok(Nnf::Truth(b)),
            None => {
                let number = constant(alloc, *j);
                Ok(evaluated(substitute(alloc, *x, &number, l)?))
            }
        },
    }
}

/// The formula with each literal changed, evaluated. `Wide` comes where a number of the result passes 128 bits, or
/// where a sum takes the place of a variable whose coefficient is none of 1, -1 and 0.
#[cycle(change)]
pub fn apply(alloc: Global, change: &Change, f: &Nnf) -> Result<Nnf, Refusal>
    requires { ChangeFits change.now }
    ensures form { IfOk result (λ r. form_of r ≡ evaluate (changed change.now (form_of f.now))) }
    ensures canonical { IfOk result IsCanonical }
    ensures wide { IsErrOf result Wide → IsRefused change.now (form_of f.now) }
    ensures narrow { IfOk result (λ _. IsWide (changed change.now (form_of f.now)) → IsWide (form_of f.now)) }
{
    match f {
        Nnf::Truth(b) => Ok(Nnf::Truth(*b)),
        Nnf::Literal(l) => change_literal(alloc, change, l),
        Nnf::Joined(c, fs) => apply_all(alloc, change, *c, fs.as_slice()),
    }
}

#[cycle(change)]
fn apply_all(
    alloc: Global,
    change: &Change,
    connective: Connective,
    fs: &[Nnf],
) -> Result<Nnf, Refusal>
    requires { ChangeFits change.now }
    ensures form { IfOk result (λ r. form_of r ≡ joined connective (map (λ f. evaluate (changed change.now (form_of f))) fs.now)) }
    ensures canonical { IfOk result IsCanonical }
    ensures wide { IsErrOf result Wide → ((f : Nnf) × (Contains fs.now f × IsRefused change.now (form_of f))) }
    ensures narrow { IfOk result (λ _. (f : Nnf) → Contains fs.now f → IsWide (changed change.now (form_of f)) → IsWide (form_of f)) }
{
    let mut members = Gathered::new(alloc, connective);
    for f in fs {
        let member = apply(alloc, change, f)?;
        members.add(member)?;
    }
    Ok(members.finish())
}
