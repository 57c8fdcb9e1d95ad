//! The first fault.

ghost use Rattle.std.specs.Prelude.{◌≡◌};
ghost use Rattle.hs_lower_faults.specs.First as spec;

use crate::error::LowerError;

fn place_of(fault: LowerError) -> u32
    ensures { result ≡ spec.place_of fault }
{
    match fault {
        LowerError::BadType(at) => at,
        LowerError::Unset(at) => at,
        LowerError::NoReturn(at) => at,
        LowerError::TooLong(at) => at,
        LowerError::RefTwice(at) => at,
        LowerError::ReturnInLoop(at) => at,
        LowerError::Memory => 0,
    }
}

fn rank(fault: LowerError) -> u32
    ensures { result ≡ spec.rank fault }
{
    match fault {
        LowerError::BadType(_) => 0,
        LowerError::Unset(_) => 1,
        LowerError::NoReturn(_) => 2,
        LowerError::TooLong(_) => 3,
        LowerError::RefTwice(_) => 4,
        LowerError::ReturnInLoop(_) => 5,
        LowerError::Memory => 6,
    }
}

fn is_before(fault: LowerError, other: LowerError) -> bool
    ensures { result ≡ spec.is_before fault other }
{
    place_of(fault) < place_of(other)
        || place_of(fault) == place_of(other) && rank(fault) < rank(other)
}

/// The first of what was found so far and one more fault.
pub fn earlier(found: Option<LowerError>, fault: LowerError) -> Option<LowerError>
    ensures { result ≡ spec.earlier found fault }
{
    match found {
        None => Some(fault),
        Some(other) => {
            if is_before(fault, other) {
                Some(fault)
            } else {
                Some(other)
            }
        }
    }
}

/// Types that do not fit at a place, unless they do.
pub fn fits(found: Option<LowerError>, fit: bool, at: u32) -> Option<LowerError>
    ensures { result ≡ spec.fits fit at found }
{
    if fit {
        return found;
    }
    earlier(found, LowerError::BadType(at))
}

/// A read at a place of what is not set, unless it is.
pub fn is_set(found: Option<LowerError>, set: bool, at: u32) -> Option<LowerError>
    ensures { result ≡ spec.is_set set at found }
{
    if set {
        return found;
    }
    earlier(found, LowerError::Unset(at))
}
