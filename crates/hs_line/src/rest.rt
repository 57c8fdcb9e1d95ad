//! What is left of a text.

ghost use Rattle.std.specs.Prelude.{◌≡◌, ◌≤◌, length};
ghost use Rattle.hs_lex.specs.Tokens.{is_in_name};
ghost use Rattle.hs_line.specs.Scan as spec;
ghost use Rattle.hs_line.specs.Steps.{Reads};

use crate::bytes::{digits_len, name_len, numbered_var, past_blanks, plain_number};
use crate::fault::Fault;
use hs_pure::Var;
use std::marker::Model;

/// What is left of a text.
#[derive(Drop)]
pub struct Rest<'a> {
    bytes: &'a [u8],
}

impl<'a> Model for Rest<'a> {
    ghost use Rattle.std.specs.Prelude.{ℕ, List};

    ghost Value = { List ℕ };

    ghost view = { λ r. r.bytes.now };
}

impl<'a> Rest<'a> {
    pub fn new(bytes: &'a [u8]) -> Rest<'a>
        ensures { result ≡ bytes.now }
    {
        Rest { bytes }
    }

    /// All that is left.
    pub fn bytes(&self) -> &'a [u8]
        ensures { result.now ≡ self.now }
    {
        self.bytes
    }

    /// Whether only blanks are left.
    pub fn is_over(&self) -> bool
        ensures { result ≡ spec.is_over self.now }
    {
        past_blanks(self.bytes).is_empty()
    }

    /// Only blanks are left.
    pub fn over(&self) -> Result<(), Fault>
        ensures { result ≡ spec.over self.now }
    {
        if self.is_over() {
            Ok(())
        } else {
            Err(Fault::Word)
        }
    }

    /// Whether this byte comes next, behind blanks.
    pub fn begins(&self, byte: u8) -> bool
        ensures { result ≡ spec.begins byte self.now }
    {
        match past_blanks(self.bytes) {
            [] => false,
            [first, ..] => *first == byte,
        }
    }

    /// Takes the name or keyword that comes next; nothing, where none does.
    #[tactic(auto, using(crate::proofs::Short::blanks_within))]
    pub fn name(&mut self) -> &'a [u8]
        ensures name { result.now ≡ spec.run is_in_name self.old }
        ensures rest { self.new ≡ spec.behind is_in_name self.old }
        ensures within { length self.new ≤ length self.old }
    {
        let text = past_blanks(self.bytes);
        let (name, rest) = text.split_at(name_len(text));
        self.bytes = rest;
        name
    }

    /// Takes this word.
    pub fn word(&mut self, word: &[u8]) -> Result<(), Fault>
        ensures exact { Reads (spec.word word.now self.old) result self.new }
        ensures within { length self.new ≤ length self.old }
    {
        if self.name() == word {
            Ok(())
        } else {
            Err(Fault::Word)
        }
    }

    /// Takes a number.
    #[tactic(auto, using(crate::proofs::Short::blanks_within))]
    pub fn number(&mut self) -> Result<u32, Fault>
        ensures exact { Reads (spec.number self.old) result self.new }
        ensures within { length self.new ≤ length self.old }
    {
        let text = past_blanks(self.bytes);
        let (digits, rest) = text.split_at(digits_len(text));
        match plain_number(digits) {
            Some(number) => {
                self.bytes = rest;
                Ok(number)
            }
            None => Err(Fault::Number),
        }
    }

    /// Takes this number.
    pub fn exactly(&mut self, wanted: u32) -> Result<(), Fault>
        ensures exact { Reads (spec.exactly wanted self.old) result self.new }
        ensures within { length self.new ≤ length self.old }
    {
        let number = self.number()?;
        if number == wanted {
            Ok(())
        } else {
            Err(Fault::Number)
        }
    }

    /// Takes a variable in numbered form.
    pub fn variable(&mut self) -> Result<Var, Fault>
        ensures { Reads (spec.variable self.old) result self.new }
    {
        let name = self.name();
        match numbered_var(name) {
            Some(v) => Ok(v),
            None => Err(no_variable(name)),
        }
    }

    /// Takes a variable, or a `-` for none.
    pub fn slot(&mut self) -> Result<Option<Var>, Fault>
        ensures { Reads (spec.slot self.old) result self.new }
    {
        if self.begins(b'-') {
            self.bytes = &past_blanks(self.bytes)[1..];
            return Ok(None);
        }
        Ok(Some(self.variable()?))
    }
}

// What is wrong where a variable is wanted.
fn no_variable(name: &[u8]) -> Fault
    ensures { result ≡ spec.no_variable name.now }
{
    match name {
        [] => Fault::Word,
        [first, ..] => {
            if first.is_ascii_alphabetic() {
                Fault::Name
            } else {
                Fault::Word
            }
        }
    }
}

/// The number that a text is, but for blanks.
pub fn number_alone(text: &[u8]) -> Result<u32, Fault>
    ensures { result ≡ spec.alone spec.number text.now }
{
    let mut rest = Rest::new(text);
    let number = rest.number()?;
    rest.over()?;
    Ok(number)
}

/// The variable that a text is, but for blanks.
pub fn variable_alone(text: &[u8]) -> Result<Var, Fault>
    ensures { result ≡ spec.alone spec.variable text.now }
{
    let mut rest = Rest::new(text);
    let v = rest.variable()?;
    rest.over()?;
    Ok(v)
}
