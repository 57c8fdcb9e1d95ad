ghost use Rattle.std.specs.Prelude.{◌≡◌, ◌↔◌, IfOk, IsTrue};

use hs_heap::Atom;
use hs_pure::{NoMemory, Pure, Valuation, Var};
use std::alloc::Global;

/// A rule of entailment with its places, which count from 1.
#[derive(Debug, Drop)]
pub enum ERule {
    LeftOr,
    LeftExists,
    /// By the approximation of this level.
    False(u32),
    Split(Pure),
    /// A right disjunct.
    RightOr(u32),
    RightExists,
    /// A right conjunct.
    Instantiate(u32),
    /// A right atom and a left atom.
    Match(u32, u32),
    /// A left atom.
    Unfold(u32),
    /// A right atom and a case of its predicate.
    Fold(u32, u32),
    /// By the approximation of this level.
    Empty(u32),
    /// A lemma and a left atom.
    Lemma(u32, u32),
}

impl ERule {
    /// An equal rule.
    pub fn copy(&self, alloc: Global) -> Result<ERule, NoMemory>
        ensures same { IfOk result (λ r. r ≡ self.now) }
    {
        match self {
            ERule::LeftOr => Ok(ERule::LeftOr),
            ERule::LeftExists => Ok(ERule::LeftExists),
            ERule::False(level) => Ok(ERule::False(*level)),
            ERule::Split(p) => Ok(ERule::Split(p.copy(alloc)?)),
            ERule::RightOr(case) => Ok(ERule::RightOr(*case)),
            ERule::RightExists => Ok(ERule::RightExists),
            ERule::Instantiate(conjunct) => Ok(ERule::Instantiate(*conjunct)),
            ERule::Match(right, left) => Ok(ERule::Match(*right, *left)),
            ERule::Unfold(left) => Ok(ERule::Unfold(*left)),
            ERule::Fold(right, case) => Ok(ERule::Fold(*right, *case)),
            ERule::Empty(level) => Ok(ERule::Empty(*level)),
            ERule::Lemma(lemma, left) => Ok(ERule::Lemma(*lemma, *left)),
        }
    }

    /// Whether both are one rule. It takes no memory.
    pub fn same(&self, other: &ERule) -> bool
        ensures exact { IsTrue result ↔ (self.now ≡ other.now) }
    {
        match (self, other) {
            (ERule::LeftOr, ERule::LeftOr) => true,
            (ERule::LeftExists, ERule::LeftExists) => true,
            (ERule::False(m), ERule::False(n)) => m == n,
            (ERule::Split(p), ERule::Split(q)) => p.same(q),
            (ERule::RightOr(m), ERule::RightOr(n)) => m == n,
            (ERule::RightExists, ERule::RightExists) => true,
            (ERule::Instantiate(m), ERule::Instantiate(n)) => m == n,
            (ERule::Match(k, l), ERule::Match(m, n)) => k == m && l == n,
            (ERule::Unfold(m), ERule::Unfold(n)) => m == n,
            (ERule::Fold(k, l), ERule::Fold(m, n)) => k == m && l == n,
            (ERule::Empty(m), ERule::Empty(n)) => m == n,
            (ERule::Lemma(k, l), ERule::Lemma(m, n)) => k == m && l == n,
            _ => false,
        }
    }
}

/// Whether the left formula implies the right one at every stack.
#[derive(Debug, Drop)]
pub struct Question {
    pub left: Pure,
    pub right: Pure,
}

impl Question {
    /// An equal question.
    pub fn copy(&self, alloc: Global) -> Result<Question, NoMemory>
        ensures same { IfOk result (λ q. q ≡ self.now) }
    {
        Ok(Question {
            left: self.left.copy(alloc)?,
            right: self.right.copy(alloc)?,
        })
    }

    /// Whether both are one question. It takes no memory.
    pub fn same(&self, other: &Question) -> bool
        ensures exact { IsTrue result ↔ (self.now ≡ other.now) }
    {
        self.left.same(&other.left) && self.right.same(&other.right)
    }
}

/// Why a goal has no derivation.
#[derive(Debug, Drop)]
pub enum Obligation {
    /// The valuation makes the left side true and the right side false.
    NotImplied(Question, Valuation),
    NoChoice(Atom),
    OpenRoot(Var),
    OpenBag(Var),
}

impl Obligation {
    /// An equal obligation.
    pub fn copy(&self, alloc: Global) -> Result<Obligation, NoMemory>
        ensures same { IfOk result (λ o. o ≡ self.now) }
    {
        match self {
            Obligation::NotImplied(question, valuation) => {
                let question = question.copy(alloc)?;
                Ok(Obligation::NotImplied(question, valuation.copy(alloc)?))
            }
            Obligation::NoChoice(atom) => Ok(Obligation::NoChoice(atom.copy(alloc)?)),
            Obligation::OpenRoot(v) => Ok(Obligation::OpenRoot(*v)),
            Obligation::OpenBag(v) => Ok(Obligation::OpenBag(*v)),
        }
    }
}

/// Why a search found nothing.
#[derive(Debug, Drop)]
pub enum Cause {
    Goals,
    Numbers,
    Atoms(Question),
    Wide(Question),
    Rank,
    Failed(Obligation),
}

impl Cause {
    /// An equal cause.
    pub fn copy(&self, alloc: Global) -> Result<Cause, NoMemory>
        ensures same { IfOk result (λ c. c ≡ self.now) }
    {
        match self {
            Cause::Goals => Ok(Cause::Goals),
            Cause::Numbers => Ok(Cause::Numbers),
            Cause::Atoms(question) => Ok(Cause::Atoms(question.copy(alloc)?)),
            Cause::Wide(question) => Ok(Cause::Wide(question.copy(alloc)?)),
            Cause::Rank => Ok(Cause::Rank),
            Cause::Failed(obligation) => Ok(Cause::Failed(obligation.copy(alloc)?)),
        }
    }
}

/// What a search may use up.
#[derive(Clone, Copy, Debug, PartialEq, Eq)]
pub struct Limits {
    pub rank: u32,
    pub goals: u64,
    pub atoms: u64,
    pub level: u32,
    pub residues: u32,
}
