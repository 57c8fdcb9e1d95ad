//! The tokens that are left to read.

ghost use Rattle.std.specs.Prelude.{◌≡◌, ◌<◌, ◌^◌, length};
ghost use Rattle.std.specs.List.{AllByRecursion};
ghost use Rattle.hs_words.specs.Input as spec;
ghost use Rattle.hs_lex.specs.Tokens.{IsSpan};
ghost use Rattle.hs_words.specs.Input.{Gives, Reads};

use crate::error::{ReadError, What};
use crate::word::{Keyword, Word, same_keyword, same_sign, word_of};
use hs_lex::{Sign, Token};
use std::marker::Model;

/// A text, and the tokens of it that are left.
#[derive(Drop)]
pub struct Cursor<'a> {
    text: &'a str,
    tokens: &'a [Token],
}

impl<'a> Model for Cursor<'a> {
    ghost use Rattle.hs_words.specs.Input.{Input};

    ghost Value = { Input };

    ghost use Rattle.hs_words.specs.View.{input_of, IsInText};

    ghost view = { input_of };

    ghost invariant = { IsInText };
}

impl<'a> Cursor<'a> {
    /// All these tokens of the text.
    #[tactic(auto, using(crate::proofs::Spans::all_spelled))]
    pub fn new(text: &'a str, tokens: &'a [Token]) -> Cursor<'a>
        requires len { length text.now < 2 ^ 32 }
        requires tokens { AllByRecursion (IsSpan text.now) tokens.now }
        ensures { result ≡ record { text = text.now; tokens = tokens.now } }
    {
        Cursor { text, tokens }
    }

    /// The text of the next token, or nothing at the end.
    #[tactic(auto, unfolding(crate::specs::Input::spelling))]
    pub fn spelling(&self) -> &'a str
        ensures { result.now ≡ spec.spelling self.now }
    {
        match self.tokens {
            [] => "",
            [token, ..] => &self.text[token.at as usize..token.end as usize],
        }
    }

    /// The next word.
    #[tactic(auto, unfolding(crate::specs::Input::next_word, crate::specs::Input::spelling))]
    pub fn peek(&self) -> Word
        ensures { result ≡ spec.next_word self.now }
    {
        match self.tokens {
            [] => Word::End,
            [token, ..] => word_of(self.spelling().as_bytes(), token.kind),
        }
    }

    /// The word behind the next one.
    #[tactic(auto, unfolding(crate::specs::Input::second_word, crate::specs::Input::next_word, crate::specs::Input::next, crate::specs::Input::spelling))]
    pub fn second(&self) -> Word
        ensures { result ≡ spec.second_word self.now }
    {
        match self.tokens {
            [_, token, ..] => {
                let spelling = &self.text[token.at as usize..token.end as usize];
                word_of(spelling.as_bytes(), token.kind)
            }
            _ => Word::End,
        }
    }

    /// Where the next token begins, or where the text ends.
    #[tactic(auto, unfolding(crate::specs::Input::place))]
    pub fn place(&self) -> u32
        ensures { result ≡ spec.place self.now }
    {
        match self.tokens {
            [] => self.text.len() as u32,
            [token, ..] => token.at,
        }
    }

    /// Why reading stops here.
    #[tactic(auto, unfolding(crate::specs::Input::refusal))]
    pub fn refuse(&self) -> ReadError
        ensures { result ≡ spec.refusal self.now }
    {
        match self.tokens {
            [] => ReadError::Expected(self.text.len() as u32, What::End),
            [token, ..] => ReadError::Expected(token.at, What::Token),
        }
    }

    /// How many tokens are left.
    pub fn left(&self) -> usize
        ensures { result ≡ spec.turns self.now }
    {
        self.tokens.len()
    }

    /// Goes behind the next token, if there is one.
    #[tactic(auto, unfolding(crate::specs::Input::next))]
    pub fn skip(&mut self)
        ensures { self.new ≡ spec.next self.old }
    {
        if let [_, rest @ ..] = self.tokens {
            self.tokens = rest;
        }
    }

    /// Whether this sign comes next.
    #[tactic(auto, unfolding(crate::specs::Input::sees))]
    pub fn sees(&self, sign: Sign) -> bool
        ensures { result ≡ spec.sees sign self.now }
    {
        match self.peek() {
            Word::Sign(next) => same_sign(next, sign),
            _ => false,
        }
    }

    /// Takes this sign.
    #[tactic(auto, unfolding(crate::specs::Input::expect))]
    pub fn expect(&mut self, sign: Sign) -> Result<(), ReadError>
        ensures { Reads (spec.expect sign self.old) result self.new }
    {
        if !self.sees(sign) {
            return Err(self.refuse());
        }
        self.skip();
        Ok(())
    }

    /// Whether this keyword comes next.
    #[tactic(auto, unfolding(crate::specs::Input::sees_key))]
    pub fn sees_key(&self, keyword: Keyword) -> bool
        ensures { result ≡ spec.sees_key keyword self.now }
    {
        match self.peek() {
            Word::Key(next) => same_keyword(next, keyword),
            _ => false,
        }
    }

    /// Takes this keyword.
    #[tactic(auto, unfolding(crate::specs::Input::expect_key))]
    pub fn expect_key(&mut self, keyword: Keyword) -> Result<(), ReadError>
        ensures { Reads (spec.expect_key keyword self.old) result self.new }
    {
        if !self.sees_key(keyword) {
            return Err(self.refuse());
        }
        self.skip();
        Ok(())
    }

    /// Takes nothing, where no token is left.
    #[tactic(auto, unfolding(crate::specs::Input::ended))]
    pub fn expect_end(&self) -> Result<(), ReadError>
        ensures { Gives (λ _. tt) result (spec.ended self.now) }
    {
        match self.peek() {
            Word::End => Ok(()),
            _ => Err(self.refuse()),
        }
    }
}
