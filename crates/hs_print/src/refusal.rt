//! Refusals.

ghost use Rattle.std.specs.Prelude.{◌≡◌, ◌++◌, OnOk};
ghost use Rattle.std.specs.String.{string_bytes};
ghost use Rattle.hs_print.specs.Line.{byte_text, case_text, proof_text, refusal_text};

use hs_text::Text;
use std::alloc::AllocError;

/// Why an input is refused. A number alone is an offset in bytes, or the number of a line from 1.
#[derive(Debug, Drop)]
pub enum Refusal {
    FileTooLarge,
    NotUtf8(u32),
    BadByte(u32),
    LiteralWide(u32),
    NameLong(u32),
    Unexpected(u32),
    UnexpectedEnd(u32),
    TooDeep(u32),
    Unknown(Text),
    Twice(Text),
    Kind(u32),
    Arity(u32),
    TooMany(u32),
    Shape(u32),
    /// A predicate, and the number of its case.
    RootPredicate(Text, u32),
    NoRoot(Text, u32),
    /// The same, and the root that is not reached.
    Unreached(Text, u32, Text),
    BadType(u32),
    Unset(u32),
    NoReturn(u32),
    TooLong(u32),
    RefTwice(u32),
    ReturnInLoop(u32),
    ProofVersion(u32),
    ProofForward(u32),
    ProofLine(u32),
    HeapLine(u32),
    UnknownMethod(Text),
    /// A method, and how many arguments it takes.
    MethodTakes(Text, u32),
    /// The source has a form that is not served yet.
    NotBuilt,
}

// Adds what is wrong at a byte.
fn push_byte(out: &mut String, at: u32, what: &str) -> Result<(), AllocError>
    ensures { OnOk result (string_bytes out.new ≡ string_bytes out.old ++ byte_text at what.now) }
{
    write!(out, "byte {at}: {what}")
}

// Adds what is wrong in a case of a predicate.
fn push_case(out: &mut String, pred: &Text, k: u32, what: &str) -> Result<(), AllocError>
    ensures { OnOk result (string_bytes out.new ≡ string_bytes out.old ++ case_text pred.now k what.now) }
{
    write!(out, "predicate {pred} case {k}: {what}")
}

// Adds what is wrong in a line of a derivation.
fn push_proof(out: &mut String, line: u32, what: &str) -> Result<(), AllocError>
    ensures { OnOk result (string_bytes out.new ≡ string_bytes out.old ++ proof_text line what.now) }
{
    write!(out, "proof line {line}: {what}")
}

// Adds the text of a refusal.
pub fn push_refusal(out: &mut String, refusal: &Refusal) -> Result<(), AllocError>
    ensures { OnOk result (string_bytes out.new ≡ string_bytes out.old ++ refusal_text refusal.now) }
{
    match refusal {
        Refusal::FileTooLarge => write!(out, "file too large"),
        Refusal::NotUtf8(at) => push_byte(out, *at, "not UTF-8"),
        Refusal::BadByte(at) => push_byte(out, *at, "bad byte"),
        Refusal::LiteralWide(at) => push_byte(out, *at, "literal too large"),
        Refusal::NameLong(at) => push_byte(out, *at, "name too long"),
        Refusal::Unexpected(at) => push_byte(out, *at, "unexpected token"),
        Refusal::UnexpectedEnd(at) => push_byte(out, *at, "unexpected end"),
        Refusal::TooDeep(at) => push_byte(out, *at, "too deep"),
        Refusal::Unknown(name) => write!(out, "unknown name {name}"),
        Refusal::Twice(name) => write!(out, "name {name} twice"),
        Refusal::Kind(at) => push_byte(out, *at, "wrong kind"),
        Refusal::Arity(at) => push_byte(out, *at, "wrong number of arguments"),
        Refusal::TooMany(at) => push_byte(out, *at, "too many"),
        Refusal::Shape(at) => push_byte(out, *at, "bad shape"),
        Refusal::RootPredicate(pred, k) => push_case(out, pred, *k, "predicate at the root"),
        Refusal::NoRoot(pred, k) => push_case(out, pred, *k, "no node at the root"),
        Refusal::Unreached(pred, k, root) => {
            push_case(out, pred, *k, "unreached root ")?;
            write!(out, "{root}")
        }
        Refusal::BadType(at) => push_byte(out, *at, "wrong type"),
        Refusal::Unset(at) => push_byte(out, *at, "not set"),
        Refusal::NoReturn(at) => push_byte(out, *at, "no return"),
        Refusal::TooLong(at) => push_byte(out, *at, "method too long"),
        Refusal::RefTwice(at) => push_byte(out, *at, "reference twice"),
        Refusal::ReturnInLoop(at) => push_byte(out, *at, "return in loop"),
        Refusal::ProofVersion(version) => write!(out, "proof version {version}"),
        Refusal::ProofForward(line) => push_proof(out, *line, "premise not earlier"),
        Refusal::ProofLine(line) => push_proof(out, *line, "bad line"),
        Refusal::HeapLine(line) => write!(out, "heap line {line}: bad line"),
        Refusal::UnknownMethod(name) => write!(out, "unknown method {name}"),
        Refusal::MethodTakes(name, count) => write!(out, "method {name} takes {count} arguments"),
        Refusal::NotBuilt => write!(out, "not built"),
    }
}
