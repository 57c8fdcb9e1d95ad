//! Sources with as many things as they may have, and with one more.

use crate::build::{MOST_BYTES, normal_of};
use hs_norm::{Limit, NormError};
use std::alloc::{AllocError, Global};
use std::test::Fail;

// A text of so many numbered parts. The thing that is counted begins `skip` bytes after its part does.
#[derive(Clone, Copy)]
struct Parts<'a> {
    limit: Limit,
    most: u32,
    front: &'a str,
    before: &'a str,
    skip: u32,
    after: &'a str,
    back: &'a str,
}

static DECLARATIONS: [Parts; 5] = [
    Parts {
        limit: Limit::Nodes,
        most: 256,
        front: "",
        before: "data a",
        skip: 0,
        after: " { } ",
        back: "",
    },
    Parts {
        limit: Limit::Preds,
        most: 256,
        front: "",
        before: "pred p",
        skip: 0,
        after: "<> == emp; ",
        back: "",
    },
    Parts {
        limit: Limit::Entailments,
        most: 1024,
        front: "",
        before: "entail 0 = x",
        skip: 0,
        after: " |- emp; ",
        back: "",
    },
    Parts {
        limit: Limit::Methods,
        most: 1024,
        front: "",
        before: "method f",
        skip: 0,
        after: "() requires emp ensures emp; { } ",
        back: "",
    },
    Parts {
        limit: Limit::Lemmas,
        most: 64,
        front: "pred p<> == emp; ",
        before: "lemma l",
        skip: 0,
        after: ": self::p<> -> emp; ",
        back: "",
    },
];

// The first of the parameters and disjuncts, and the first atom, stand in front.
static MEMBERS: [Parts; 7] = [
    Parts {
        limit: Limit::Fields,
        most: 16,
        front: "data a { ",
        before: "int f",
        skip: 0,
        after: "; ",
        back: "}",
    },
    Parts {
        limit: Limit::Params,
        most: 15,
        front: "pred p<n",
        before: ", n",
        skip: 2,
        after: "",
        back: "> == emp;",
    },
    Parts {
        limit: Limit::Params,
        most: 15,
        front: "method f(int n",
        before: ", int n",
        skip: 2,
        after: "",
        back: ") requires emp ensures emp; { }",
    },
    Parts {
        limit: Limit::Pairs,
        most: 16,
        front: "method f() ",
        before: "requires 0 = x",
        skip: 0,
        after: " ensures emp; ",
        back: "{ }",
    },
    Parts {
        limit: Limit::Cases,
        most: 15,
        front: "entail emp |- emp",
        before: " or x",
        skip: 4,
        after: " = 0",
        back: ";",
    },
    Parts {
        limit: Limit::Cases,
        most: 15,
        front: "pred p<> == emp",
        before: " or exists k",
        skip: 4,
        after: ". emp",
        back: ";",
    },
    Parts {
        limit: Limit::Atoms,
        most: 63,
        front: "data a { } entail emp |- y::a<>",
        before: " * x",
        skip: 3,
        after: "::a<>",
        back: ";",
    },
];

// `self`, parameters and `res` are variables too.
static VARIABLES: [Parts; 4] = [
    Parts {
        limit: Limit::Vars,
        most: 1000,
        front: "entail emp",
        before: " & (exists x",
        skip: 11,
        after: ". true)",
        back: " |- emp;",
    },
    Parts {
        limit: Limit::Vars,
        most: 998,
        front: "pred p<n> == emp",
        before: " & (exists x",
        skip: 11,
        after: ". true)",
        back: ";",
    },
    Parts {
        limit: Limit::Vars,
        most: 998,
        front: "pred p<n> == emp; lemma l: self::p<k> -> emp",
        before: " & (exists x",
        skip: 11,
        after: ". true)",
        back: ";",
    },
    Parts {
        limit: Limit::Vars,
        most: 998,
        front: "method f(int n) requires emp",
        before: " & (exists x",
        skip: 11,
        after: ". true)",
        back: " ensures emp; { }",
    },
];

fn push_parts(text: &mut String, parts: &Parts) -> Result<(), AllocError> {
    let before = parts.before;
    let after = parts.after;
    for i in 0..parts.most {
        write!(text, "{before}{i}{after}")?;
    }
    Ok(())
}

// The text up to the last part that it may have.
fn allowed(alloc: Global, parts: &Parts) -> Result<String, AllocError> {
    let mut text = String::from_str(alloc, parts.front)?;
    push_parts(&mut text, parts)?;
    Ok(text)
}

fn is_enough(alloc: Global, parts: &Parts) -> Result<bool, Fail> {
    let mut text = allowed(alloc, parts)?;
    text.push_str(parts.back)?;
    Ok(normal_of(alloc, text.as_str())?.is_ok())
}

fn place(text: &str, skip: u32) -> Result<u32, Fail> {
    if text.len() > MOST_BYTES || skip > 100 {
        return Err(Fail::from("a short text"));
    }
    Ok(text.len() as u32 + skip)
}

// Whether one more is refused where it begins.
fn is_too_many(alloc: Global, parts: &Parts) -> Result<bool, Fail> {
    let mut text = allowed(alloc, parts)?;
    let place = place(text.as_str(), parts.skip)?;
    text.push_str(parts.before)?;
    text.push_str("last")?;
    text.push_str(parts.after)?;
    text.push_str(parts.back)?;
    match normal_of(alloc, text.as_str())? {
        Err(NormError::TooMany(at, limit)) => Ok(at == place && limit == parts.limit),
        _ => Ok(false),
    }
}

// The first of these whose bound is another.
fn first_wrong<'a>(alloc: Global, all: &[Parts<'a>]) -> Result<Option<&'a str>, Fail> {
    for parts in all {
        if !is_enough(alloc, parts)? || !is_too_many(alloc, parts)? {
            return Ok(Some(parts.front));
        }
    }
    Ok(None)
}

#[test]
fn a_source_has_so_many_declarations(rt: HostRuntime) -> Result<(), Fail> {
    assert_eq!(rt; first_wrong(rt.alloc(), &DECLARATIONS)?, None);
    Ok(())
}

#[test]
fn a_declaration_has_so_many_members(rt: HostRuntime) -> Result<(), Fail> {
    assert_eq!(rt; first_wrong(rt.alloc(), &MEMBERS)?, None);
    Ok(())
}

#[test]
fn a_claim_has_so_many_variables(rt: HostRuntime) -> Result<(), Fail> {
    assert_eq!(rt; first_wrong(rt.alloc(), &VARIABLES)?, None);
    Ok(())
}
