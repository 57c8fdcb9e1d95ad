//! What reports with status 0 promise. Each function states a law; its calls bring those of the layers below.

ghost use Rattle.hs_report_laws.specs.Laws.{AcceptedProgramsAreSafe, AcceptedTextsProve, WrittenProofsAreRight};

use hs_hip_lines::accepted_pairs_are_safe;
use hs_judge::{listed_entailments_hold, listed_pairs_are_safe};
use hs_lower_sound::{lowered_programs_are_sound, methods_are_kept, sources_are_lowerable};
use hs_norm_sound::definitions_are_sound;
use hs_pred_lines::shown_invariants_hold;
use hs_proof_laws::proved_texts_are_right;

/// A report of `hip` with status 0 is of a program whose pairs are safe to start for every number of steps.
pub fn accepted_programs_are_safe()
    ensures { AcceptedProgramsAreSafe }
{
    definitions_are_sound();
    sources_are_lowerable();
    lowered_programs_are_sound();
    methods_are_kept();
    shown_invariants_hold();
    accepted_pairs_are_safe();
}

/// A report of `check` with status 0 is of a text that proves every claim of the source: each entailment holds with the
/// residues that its lines name, and the start of each pair is safe for every number of steps.
pub fn accepted_texts_prove()
    ensures { AcceptedTextsProve }
{
    definitions_are_sound();
    sources_are_lowerable();
    lowered_programs_are_sound();
    listed_entailments_hold();
    listed_pairs_are_safe();
}

/// A report of `prove` is the text of right nodes and of lines that name what they conclude; with status 0 it lists every
/// claim.
pub fn written_proofs_are_right()
    ensures { WrittenProofsAreRight }
{
    methods_are_kept();
    proved_texts_are_right();
}
