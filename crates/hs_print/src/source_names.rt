//! Which source name a number is shown by.

ghost use Rattle.std.specs.Prelude.{◌≡◌};
ghost use Rattle.std.specs.List.{list_any};
ghost use Rattle.std.specs.Option.{option_copied};
ghost use Rattle.hs_print.specs.Variable as spec;

use hs_numbering::Names;
use hs_text::Text;

fn has_name(name: &Text, other: &Option<Text>) -> bool
    ensures { result ≡ spec.has_name name.now other.now }
{
    match other {
        None => false,
        Some(other) => name.same(other),
    }
}

fn is_among(name: &Text, names: &[Option<Text>]) -> bool
    ensures { result ≡ list_any (spec.has_name name.now) names.now }
{
    names.iter().any(|other| has_name(name, other))
}

// The source name of a number, if it has one.
pub fn source_name(names: &Names, number: u32) -> Option<&Text>
    ensures { option_copied result ≡ spec.source_name names.now number }
{
    if number == 0 {
        return None;
    }
    match names.list.get(number as usize - 1) {
        None => None,
        Some(None) => None,
        Some(Some(name)) => Some(name),
    }
}

// The source name of a number, if no lesser number has it.
pub fn shown_name(names: &Names, number: u32) -> Option<&Text>
    ensures { option_copied result ≡ spec.shown_name names.now number }
{
    let name = source_name(names, number)?;
    let list = names.list.as_slice();
    let before = (number as usize).saturating_sub(1);
    if before <= list.len() && is_among(name, &list[..before]) {
        None
    } else {
        Some(name)
    }
}
