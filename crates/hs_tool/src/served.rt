//! Sources that are served.

ghost use Rattle.std.specs.Prelude.{◌≡◌, ◌≤◌, length, IfErr, IfOk};
ghost use Rattle.std.specs.List.{list_all};
ghost use Rattle.hs_tool.specs.Run.{source_limit};
ghost use Rattle.hs_tool.specs.Served as spec;
ghost use Rattle.hs_tool.specs.Sources.{HasServingCause, IsServedSource};

use crate::sources::founded_source;
use hs_core::Program;
use hs_core_lines::{CoreError, program};
use hs_entail_lines::entailments_are_goals;
use hs_lower_set::lowered_programs_are_set;
use hs_lower_sound::{lowered_programs_are_sound, methods_are_kept, sources_are_lowerable};
use hs_norm::{MethodTree, Resolved};
use hs_norm_sound::{definitions_are_sound, goals_are_well_formed, goals_have_disjuncts};
use hs_print::Refusal;
use hs_source::SourceError;
use std::alloc::Global;

/// A source in normal form whose definitions are founded, with its core program.
#[derive(Drop)]
pub struct Served {
    pub resolved: Resolved,
    pub program: Program,
}

// Whether no pair of a method has a variant.
fn has_no_variant(method: &MethodTree) -> bool
    ensures { result ≡ spec.has_no_variant method.now }
{
    method
        .pairs
        .as_slice()
        .iter()
        .all(|pair| pair.variant.is_none())
}

// Whether no pair of any method has a variant.
fn have_no_variants(methods: &[MethodTree]) -> bool
    ensures { result ≡ list_all spec.has_no_variant methods.now }
{
    methods.iter().all(|method| has_no_variant(method))
}

// Whether a source in normal form has neither lemmas nor variants.
fn is_served(resolved: &Resolved) -> bool
    ensures { result ≡ spec.is_served resolved.now }
{
    resolved.defs.lemmas.is_empty() && have_no_variants(resolved.methods.as_slice())
}

/// The normal form and the core program of a source of at most 2^20 bytes, or its first fault: of its bytes, of
/// definitions that are not founded, of methods that have no core program, or that it has a lemma or a variant.
pub fn served_source(alloc: Global, bytes: &[u8]) -> Result<Served, SourceError>
    requires few { length bytes.now ≤ source_limit }
    ensures found { IfOk result (IsServedSource bytes.now) }
    ensures cause { IfErr result (HasServingCause bytes.now) }
{
    definitions_are_sound();
    goals_are_well_formed();
    goals_have_disjuncts();
    entailments_are_goals();
    sources_are_lowerable();
    lowered_programs_are_sound();
    lowered_programs_are_set();
    methods_are_kept();
    let resolved = founded_source(alloc, bytes)?;
    match program(alloc, &resolved) {
        Ok(program) => {
            if is_served(&resolved) {
                Ok(Served { resolved, program })
            } else {
                Err(SourceError::Refused(Refusal::NotBuilt))
            }
        }
        Err(CoreError::Refused(cause)) => Err(SourceError::Refused(cause)),
        Err(CoreError::Memory) => Err(SourceError::Memory),
    }
}
