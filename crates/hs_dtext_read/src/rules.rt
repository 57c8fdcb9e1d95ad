//! The number of a node and its rule, which stand in the first part of its line.

ghost use Rattle.std.specs.Prelude.{◌≡◌, ◌<◌, ◌^◌, length};
ghost use Rattle.hs_line.specs.Steps.{Gives};
ghost use Rattle.hs_dtext.specs.Parts as spec;

use crate::pures::enclosed;
use hs_core::PRule;
use hs_dtext::RuleWord;
use hs_goal::ERule;
use hs_line::{Fault, Rest, Stop, number_alone};
use hs_node::Rule;
use std::alloc::Global;

const RULE_WORDS: [(&[u8], RuleWord); 22] = [
    (b"inv", RuleWord::Inv),
    (b"leftor", RuleWord::LeftOr),
    (b"leftexists", RuleWord::LeftExists),
    (b"false", RuleWord::False),
    (b"split", RuleWord::Split),
    (b"rightor", RuleWord::RightOr),
    (b"rightexists", RuleWord::RightExists),
    (b"instantiate", RuleWord::Instantiate),
    (b"match", RuleWord::Match),
    (b"unfold", RuleWord::Unfold),
    (b"fold", RuleWord::Fold),
    (b"empty", RuleWord::Empty),
    (b"lemma", RuleWord::Lemma),
    (b"or", RuleWord::Or),
    (b"assign", RuleWord::Assign),
    (b"new", RuleWord::New),
    (b"get", RuleWord::Get),
    (b"set", RuleWord::Set),
    (b"branch", RuleWord::Branch),
    (b"jump", RuleWord::Jump),
    (b"call", RuleWord::Call),
    (b"return", RuleWord::Return),
];

fn rule_word(text: &[u8]) -> Option<RuleWord>
    ensures { result ≡ spec.rule_word text.now }
{
    let mut words: &[(&[u8], RuleWord)] = &RULE_WORDS;
    while let [(spelling, word), rest @ ..] = words {
        if text == *spelling {
            return Some(*word);
        }
        words = rest;
    }
    None
}

fn without(rule: Rule, rest: &Rest<'_>) -> Result<Rule, Fault>
    ensures { result ≡ spec.without rule rest.now }
{
    rest.over()?;
    Ok(rule)
}

fn two_numbers(rest: &mut Rest<'_>) -> Result<(u32, u32), Fault>
    ensures { result ≡ spec.number_pair rest.old }
{
    let first = rest.number()?;
    let second = number_alone(rest.bytes())?;
    Ok((first, second))
}

// The rule of a word, with its numbers or its formula.
fn rule_by(alloc: Global, word: RuleWord, rest: &mut Rest<'_>) -> Result<Rule, Stop>
    requires { length rest.old < 2 ^ 32 }
    ensures { Gives (spec.rule_by word rest.old) result }
{
    match word {
        RuleWord::Inv => Ok(without(Rule::Inv, rest)?),
        RuleWord::LeftOr => Ok(without(Rule::E(ERule::LeftOr), rest)?),
        RuleWord::LeftExists => Ok(without(Rule::E(ERule::LeftExists), rest)?),
        RuleWord::False => Ok(Rule::E(ERule::False(number_alone(rest.bytes())?))),
        RuleWord::Split => Ok(Rule::E(ERule::Split(enclosed(alloc, rest)?))),
        RuleWord::RightOr => Ok(Rule::E(ERule::RightOr(number_alone(rest.bytes())?))),
        RuleWord::RightExists => Ok(without(Rule::E(ERule::RightExists), rest)?),
        RuleWord::Instantiate => Ok(Rule::E(ERule::Instantiate(number_alone(rest.bytes())?))),
        RuleWord::Match => {
            let numbers = two_numbers(rest)?;
            Ok(Rule::E(ERule::Match(numbers.0, numbers.1)))
        }
        RuleWord::Unfold => Ok(Rule::E(ERule::Unfold(number_alone(rest.bytes())?))),
        RuleWord::Fold => {
            let numbers = two_numbers(rest)?;
            Ok(Rule::E(ERule::Fold(numbers.0, numbers.1)))
        }
        RuleWord::Empty => Ok(Rule::E(ERule::Empty(number_alone(rest.bytes())?))),
        RuleWord::Lemma => {
            let numbers = two_numbers(rest)?;
            Ok(Rule::E(ERule::Lemma(numbers.0, numbers.1)))
        }
        RuleWord::Or => Ok(without(Rule::P(PRule::Or), rest)?),
        RuleWord::Assign => Ok(without(Rule::P(PRule::Assign), rest)?),
        RuleWord::New => Ok(without(Rule::P(PRule::New), rest)?),
        RuleWord::Get => Ok(without(Rule::P(PRule::Get), rest)?),
        RuleWord::Set => Ok(without(Rule::P(PRule::Set), rest)?),
        RuleWord::Branch => Ok(without(Rule::P(PRule::Branch), rest)?),
        RuleWord::Jump => Ok(without(Rule::P(PRule::Jump), rest)?),
        RuleWord::Call => Ok(Rule::P(PRule::Call(number_alone(rest.bytes())?))),
        RuleWord::Return => Ok(without(Rule::P(PRule::Return), rest)?),
    }
}

fn rule(alloc: Global, rest: &mut Rest<'_>) -> Result<Rule, Stop>
    requires { length rest.old < 2 ^ 32 }
    ensures { Gives (spec.rule rest.old) result }
{
    match rule_word(rest.name()) {
        Some(word) => rule_by(alloc, word, rest),
        None => Err(Stop::Fault(Fault::Word)),
    }
}

// The number of the node and its rule.
pub fn head(alloc: Global, number: u32, text: &[u8]) -> Result<Rule, Stop>
    requires { length text.now < 2 ^ 32 }
    ensures { Gives (spec.head number text.now) result }
{
    let mut rest = Rest::new(text);
    rest.exactly(number)?;
    rule(alloc, &mut rest)
}
