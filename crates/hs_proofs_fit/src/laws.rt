//! The law of residues of proofs. It is the contract of a function that does nothing; the calls in it bring the laws that
//! its proof takes from lower layers.

ghost use Rattle.hs_proofs_fit.specs.Laws.{ProofsAreFormed};

use hs_program_fits::right_steps_stay_formed;
use hs_rules::right_steps_stay_fresh;

/// The residue of a proof is formed.
pub fn proofs_are_formed()
    ensures { ProofsAreFormed }
{
    right_steps_stay_fresh();
    right_steps_stay_formed();
}
