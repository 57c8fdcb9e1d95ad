//! A text that is cut at a byte.

ghost use Rattle.std.specs.Prelude.{◌≡◌, ◌+◌, ◌<◌, ◌≤◌, ◌^◌, length, Some, None, MatchOption};
ghost use Rattle.std.specs.Option.{option_map};
ghost use Rattle.hs_line.specs.Pieces as spec;

use std::marker::Model;

/// The pieces of a text that are left, before, between and behind the bytes of one value.
#[derive(Drop)]
pub struct Pieces<'a> {
    rest: Option<&'a [u8]>,
    at: u8,
}

impl<'a> Model for Pieces<'a> {
    ghost use Rattle.std.specs.Prelude.{ℕ, List};
    ghost use Rattle.hs_line.specs.View.{pieces_of};

    ghost Value = { List (List ℕ) };

    ghost view = { pieces_of };
}

// The length of the first piece.
#[tactic(auto, using(crate::proofs::Cuts::piece_fits))]
fn piece_len(text: &[u8], at: u8) -> usize
    ensures value { result ≡ spec.piece_len at text.now }
    ensures within { result ≤ length text.now }
{
    text.iter().take_while(|b| **b != at).count()
}

// The text behind its first byte.
fn behind_cut(text: &[u8]) -> Option<&[u8]>
    ensures { option_map (λ t. t.now) result ≡ spec.behind_cut text.now }
{
    match text {
        [] => None,
        [_, later @ ..] => Some(later),
    }
}

impl<'a> Pieces<'a> {
    /// All pieces of a text.
    #[tactic(auto, using(crate::proofs::Short::cut_short, crate::proofs::Short::cut_few))]
    pub fn new(text: &'a [u8], at: u8) -> Pieces<'a>
        ensures all { result ≡ spec.cut_at at text.now }
        ensures few { length result ≤ length text.now + 1 }
        ensures short { length text.now < 2 ^ 32 → spec.AreShort result }
    {
        Pieces {
            rest: Some(text),
            at,
        }
    }

    /// Whether no piece is left.
    #[tactic(auto, using(crate::proofs::Cuts::some_pieces))]
    pub fn is_over(&self) -> bool
        ensures { result ≡ spec.no_pieces self.now }
    {
        match self.rest {
            None => true,
            Some(_) => false,
        }
    }

    /// Takes the next piece.
    #[tactic(auto, using(crate::proofs::Short::first_short, crate::proofs::Short::later_short))]
    pub fn next(&mut self) -> Option<&'a [u8]>
        ensures piece { option_map (λ p. p.now) result ≡ spec.first_piece self.old }
        ensures rest { self.new ≡ spec.later_pieces self.old }
        ensures short { spec.AreShort self.old → MatchOption result (Unit {0}) (λ p. length p.now < 2 ^ 32) × spec.AreShort self.new }
    {
        self.first()
    }

    #[tactic(auto, using(crate::proofs::Cuts::first_cut, crate::proofs::Cuts::later_cut))]
    fn first(&mut self) -> Option<&'a [u8]>
        ensures piece { option_map (λ p. p.now) result ≡ spec.first_piece self.old }
        ensures rest { self.new ≡ spec.later_pieces self.old }
    {
        let Some(rest) = self.rest else {
            return None;
        };
        let (piece, more) = rest.split_at(piece_len(rest, self.at));
        self.rest = behind_cut(more);
        Some(piece)
    }
}
