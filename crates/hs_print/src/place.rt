//! Where a pure formula stands, and what it looks like there.

ghost use Rattle.std.specs.Prelude.{◌≡◌, length};
ghost use Rattle.hs_print.specs.Pure as spec;
ghost use Rattle.hs_print.specs.Variable.{Naming};

use hs_pure::Pure;

/// Where a formula stands.
#[derive(Clone, Copy, Debug, PartialEq, Eq)]
pub enum Place {
    /// By itself.
    Alone,
    /// Inside another connective.
    Member,
    /// Behind a negation.
    Denied,
}

/// What a formula looks like.
#[derive(Clone, Copy, Debug, PartialEq, Eq)]
pub enum Class {
    Equation,
    /// Any other relation.
    Relation,
    /// An `And` or `Or` with members.
    Connective,
    /// The negation of an equation, which is printed as a relation.
    DeniedEquation,
    Item,
}

/// The connective whose members are printed.
#[derive(Clone, Copy, Debug, PartialEq, Eq)]
pub enum Signs {
    And,
    Or,
}

impl Signs {
    // What stands between two members.
    pub fn between(self) -> &'static str
        ensures { result.now ≡ spec.between self }
    {
        match self {
            Signs::And => " & ",
            Signs::Or => " | ",
        }
    }

    // What stands for no member.
    pub fn none(self) -> &'static str
        ensures { result.now ≡ spec.none self }
    {
        match self {
            Signs::And => "true",
            Signs::Or => "false",
        }
    }
}

fn denied_class(class: Class) -> Class
    ensures { result ≡ spec.denied_class class }
{
    match class {
        Class::Equation => Class::DeniedEquation,
        _ => Class::Item,
    }
}

fn members_class(ps: &[Pure]) -> Class
    ensures { result ≡ spec.members_class (length ps.now) }
{
    if ps.is_empty() {
        Class::Item
    } else {
        Class::Connective
    }
}

// What a formula looks like.
pub fn class_of(p: &Pure) -> Class
    ensures { (names : Naming) → (spec.printed names p.now).class ≡ result }
{
    match p {
        Pure::Eq(_, _) => Class::Equation,
        Pure::Lt(_, _) => Class::Relation,
        Pure::Le(_, _) => Class::Relation,
        Pure::Divides(_, _) => Class::Item,
        Pure::BagEq(_, _) => Class::Equation,
        Pure::Subset(_, _) => Class::Relation,
        Pure::Member(_, _) => Class::Relation,
        Pure::AllOf(_, _, _) => Class::Item,
        Pure::Not(p) => denied_class(class_of(p.get())),
        Pure::And(ps) => members_class(ps.as_slice()),
        Pure::Or(ps) => members_class(ps.as_slice()),
        Pure::Exists(_, _) => Class::Item,
        Pure::Forall(_, _) => Class::Item,
    }
}

// What stands before the body of a formula.
pub fn opening(place: Place, class: Class) -> &'static str
    ensures { result.now ≡ spec.opening place class }
{
    match (place, class) {
        (Place::Alone, _) => "",
        (Place::Member, Class::Connective) => "(",
        (Place::Member, _) => "",
        (Place::Denied, Class::Equation) => "",
        (Place::Denied, Class::Item) => "!",
        (Place::Denied, _) => "!(",
    }
}

// What stands behind it.
pub fn closing(place: Place, class: Class) -> &'static str
    ensures { result.now ≡ spec.closing place class }
{
    match (place, class) {
        (Place::Alone, _) => "",
        (Place::Member, Class::Connective) => ")",
        (Place::Member, _) => "",
        (Place::Denied, Class::Equation) => "",
        (Place::Denied, Class::Item) => "",
        (Place::Denied, _) => ")",
    }
}

// The sign of an equation, or of its denial.
pub fn equation_sign(place: Place) -> &'static str
    ensures { result.now ≡ spec.equation_sign (spec.is_denied place) }
{
    match place {
        Place::Alone => " = ",
        Place::Member => " = ",
        Place::Denied => " != ",
    }
}
