//! Formulas made of formulas.

ghost use Rattle.std.specs.Prelude.{◌≡◌, IfOk, IfErr};
ghost use Rattle.hs_pure.specs.Assertion.{assertion_of, negation};
ghost use Rattle.hs_cooper.specs.declared.stop.Stop.TheVariants.{Memory};

use hs_cooper::Stop;
use hs_pure::Pure;
use sqlite_items::Boxed;
use std::alloc::Global;

// A copy, for a walk that may stop.
pub(crate) fn copied(alloc: Global, p: &Pure) -> Result<Pure, Stop>
    ensures same { IfOk result (λ r. r ≡ p.now) }
    ensures memory { IfErr result (λ e. e ≡ Memory) }
{
    match p.copy(alloc) {
        Ok(copy) => Ok(copy),
        Err(_) => Err(Stop::Memory),
    }
}

// Not `p`.
pub(crate) fn denial(alloc: Global, p: Pure) -> Result<Pure, Stop>
    ensures form { IfOk result (λ r. assertion_of r ≡ negation (assertion_of p)) }
    ensures memory { IfErr result (λ e. e ≡ Memory) }
{
    Ok(Pure::Not(Boxed::new(alloc, p)?))
}
