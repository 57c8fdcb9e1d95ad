//! The core program of a source, and its text.

ghost use Rattle.std.specs.Prelude.{◌≡◌, ◌∷◌, [], IfErr, IfOk};
ghost use Rattle.hs_core_lines.specs.Core.{AreCoreLines, HasLoweringCause, HasProgram};

use crate::error::{CoreError, of_lowering};
use hs_core::Program;
use hs_core_text::core;
use hs_lower::lower;
use hs_norm::Resolved;
use hs_print::Line;
use hs_pure::NoMemory;
use hs_text::Text;
use sqlite_items::Items;
use std::alloc::Global;

/// The core program of a source, or the refusal of its first fault.
pub fn program(alloc: Global, resolved: &Resolved) -> Result<Program, CoreError>
    ensures found { IfOk result (HasProgram resolved.now) }
    ensures cause { IfErr result (HasLoweringCause resolved.now) }
{
    match lower(alloc, resolved) {
        Ok(program) => Ok(program),
        Err(fault) => Err(of_lowering(fault)),
    }
}

/// Lines of one.
pub fn alone(alloc: Global, line: Line) -> Result<Items<Line>, NoMemory>
    ensures { IfOk result (λ lines. lines ≡ line ∷ []) }
{
    Ok(Items::from_vec(vec![in alloc; line]?))
}

/// The line of `core`: the text of the core program of a source in normal form. `Refused` has the first fault that keeps
/// the source from having one, and `Memory` comes where there is none.
pub fn core_lines(alloc: Global, resolved: &Resolved) -> Result<Items<Line>, CoreError>
    ensures lines { IfOk result (AreCoreLines resolved.now) }
    ensures cause { IfErr result (HasLoweringCause resolved.now) }
{
    let program = program(alloc, resolved)?;
    let text = core(alloc, &program, &resolved.defs)?;
    Ok(alone(alloc, Line::CoreText(Text::new(text)))?)
}
