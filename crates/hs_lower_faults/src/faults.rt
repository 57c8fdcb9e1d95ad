//! The first fault of a method.

ghost use Rattle.std.specs.Prelude.{◌≡◌, not, IfOk};
ghost use Rattle.hs_lower_scope.specs.View.{shown};
ghost use Rattle.hs_lower_faults.specs.Faults as spec;

use crate::ends::block_ends;
use crate::error::LowerError;
use crate::first::earlier;
use crate::setting::method_block;
use crate::types::block;
use hs_lower_scope::Scope;
use hs_norm::MethodTree;
use hs_pure::NoMemory;
use std::alloc::Global;

fn returns(found: Option<LowerError>, right: bool, at: u32) -> Option<LowerError>
    ensures { result ≡ spec.returns right at found }
{
    if right {
        return found;
    }
    earlier(found, LowerError::NoReturn(at))
}

// Whether a result is wanted at an end that can be reached.
fn has_end(m: &MethodTree) -> bool
    ensures { result ≡ spec.has_end m.now }
{
    m.result.is_some() && block_ends(&m.block)
}

/// The first fault of a method, in the order of the text, and of several at one place the one that `LowerError` names
/// first: types that do not fit, reads of what is not set, and an end without result.
pub fn method_fault(
    alloc: Global,
    scope: &Scope,
    m: &MethodTree,
) -> Result<Option<LowerError>, NoMemory>
    ensures { IfOk result (λ f. f ≡ spec.method_fault (shown scope.now) m.now) }
{
    let found = block(scope, None, &m.block);
    let found = method_block(alloc, scope, found, m)?;
    Ok(returns(found, !has_end(m), m.block.end))
}
