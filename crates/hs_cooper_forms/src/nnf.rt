//! Formulas in negation normal form.

ghost use Rattle.std.specs.Prelude.{◌≡◌, ◌<◌, ◌==◌, ◌%◌, not, int_lt, pos, unsigned_abs};
ghost use Rattle.hs_elimination.specs.Normal.{divides_test, evaluate};
ghost use Rattle.hs_cooper_forms.specs.Reading.{form_of, literal_form, holds_by, unit, IsCanonical};

use hs_pure::Lin;
use sqlite_items::Items;

/// What a literal says of its sum.
#[derive(Clone, Copy, Debug, PartialEq, Eq)]
pub enum Relation {
    /// It is above 0.
    Positive,
    /// The number divides it.
    Multiple(u128),
    /// The number does not divide it.
    NoMultiple(u128),
}

/// What is said of a sum.
#[derive(Debug, Drop)]
pub struct Literal {
    pub relation: Relation,
    pub sum: Lin,
}

/// How members are joined.
#[derive(Clone, Copy, Debug, PartialEq, Eq)]
pub enum Connective {
    And,
    Or,
}

impl Connective {
    // What a list without members is.
    pub(crate) fn unit(self) -> bool
        ensures { result ≡ unit self }
    {
        match self {
            Connective::And => true,
            Connective::Or => false,
        }
    }
}

/// A formula. A list of members may have one member, or none.
#[derive(Debug, Drop)]
pub enum Nnf {
    Truth(bool),
    Literal(Literal),
    Joined(Connective, Items<Nnf>),
}

// Whether `d` divides `z`; 0 divides 0 alone.
fn divides(d: u128, z: i128) -> bool
    ensures { result ≡ divides_test d z }
{
    let size = z.unsigned_abs();
    if d == 0 { size == 0 } else { size % d == 0 }
}

// Whether a literal without variables is true, from its sum's constant.
fn holds(relation: Relation, constant: i128) -> bool
    ensures { result ≡ holds_by relation constant }
{
    match relation {
        Relation::Positive => constant > 0,
        Relation::Multiple(d) => divides(d, constant),
        Relation::NoMultiple(d) => !divides(d, constant),
    }
}

/// The literal, evaluated where it has no variables.
pub fn evaluated(l: Literal) -> Nnf
    ensures form { form_of result ≡ evaluate (literal_form l) }
    ensures canonical { IsCanonical result }
{
    if l.sum.terms.is_empty() {
        Nnf::Truth(holds(l.relation, l.sum.constant))
    } else {
        Nnf::Literal(l)
    }
}
