//! What the reader sees of a token.

ghost use Rattle.std.specs.Prelude.{◌≡◌};
ghost use Rattle.hs_words.specs.Word as spec;

use hs_lex::{Sign, TokenKind};

#[derive(Clone, Copy, Debug, PartialEq, Eq)]
pub enum Keyword {
    Data,
    Pred,
    Inv,
    Entail,
    Emp,
    Exists,
    Forall,
    Or,
    All,
    In,
    Subset,
    Union,
    Inter,
    Diff,
    Divides,
    Null,
    True,
    False,
    Int,
    Method,
    Requires,
    Ensures,
    New,
    If,
    Else,
    Return,
    Lemma,
    Variant,
    SelfWord,
    Res,
    NoWord,
}

const KEYWORDS: [(&[u8], Keyword); 31] = [
    (b"data", Keyword::Data),
    (b"pred", Keyword::Pred),
    (b"inv", Keyword::Inv),
    (b"entail", Keyword::Entail),
    (b"emp", Keyword::Emp),
    (b"exists", Keyword::Exists),
    (b"forall", Keyword::Forall),
    (b"or", Keyword::Or),
    (b"all", Keyword::All),
    (b"in", Keyword::In),
    (b"subset", Keyword::Subset),
    (b"union", Keyword::Union),
    (b"inter", Keyword::Inter),
    (b"diff", Keyword::Diff),
    (b"divides", Keyword::Divides),
    (b"null", Keyword::Null),
    (b"true", Keyword::True),
    (b"false", Keyword::False),
    (b"int", Keyword::Int),
    (b"method", Keyword::Method),
    (b"requires", Keyword::Requires),
    (b"ensures", Keyword::Ensures),
    (b"new", Keyword::New),
    (b"if", Keyword::If),
    (b"else", Keyword::Else),
    (b"return", Keyword::Return),
    (b"lemma", Keyword::Lemma),
    (b"variant", Keyword::Variant),
    (b"self", Keyword::SelfWord),
    (b"res", Keyword::Res),
    (b"none", Keyword::NoWord),
];

/// A token by its kind and, where it is a name, by its text.
#[derive(Clone, Copy, Debug, PartialEq, Eq)]
pub enum Word {
    Name,
    Key(Keyword),
    Hole,
    Number(u128),
    Sign(Sign),
    /// No token is left.
    End,
}

#[tactic(auto, unfolding(crate::specs::Word::name_word))]
fn name_word(text: &[u8]) -> Word
    ensures { result ≡ spec.name_word text.now }
{
    let mut keywords: &[(&[u8], Keyword)] = &KEYWORDS;
    while let [(spelling, keyword), rest @ ..] = keywords {
        if text == *spelling {
            return Word::Key(*keyword);
        }
        keywords = rest;
    }
    Word::Name
}

pub fn word_of(text: &[u8], kind: TokenKind) -> Word
    ensures { result ≡ spec.word_of text.now kind }
{
    match kind {
        TokenKind::Name => name_word(text),
        TokenKind::Hole => Word::Hole,
        TokenKind::Number(number) => Word::Number(number),
        TokenKind::Sign(sign) => Word::Sign(sign),
    }
}

#[tactic(auto, unfolding(crate::specs::Word::same_sign))]
pub fn same_sign(a: Sign, b: Sign) -> bool
    ensures { result ≡ spec.same_sign a b }
{
    a == b
}

#[tactic(auto, unfolding(crate::specs::Word::same_keyword))]
pub fn same_keyword(a: Keyword, b: Keyword) -> bool
    ensures { result ≡ spec.same_keyword a b }
{
    a == b
}
