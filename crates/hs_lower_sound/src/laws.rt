//! Laws for the layers above. Each is the contract of a function without a body.

ghost use Rattle.hs_lower_sound.specs.Laws.{LoweredCodeIsShort, LoweredProgramsAreSound, MethodsAreKept, SourcesAreLowerable};

use hs_norm_sound::{
    definitions_are_sound, methods_are_declared, names_are_kept, pairs_are_normal,
    pairs_have_disjuncts,
};

/// A program that a source in normal form is lowered to is sound over its definitions.
pub fn lowered_programs_are_sound()
    ensures { LoweredProgramsAreSound }
{}

/// The normal form of a source that tokens spell is as the law above asks.
pub fn sources_are_lowerable()
    ensures { SourcesAreLowerable }
{
    names_are_kept();
    methods_are_declared();
    definitions_are_sound();
    pairs_are_normal();
    pairs_have_disjuncts();
}

/// No method of the program has over 4,096 instructions.
pub fn lowered_code_is_short()
    ensures { LoweredCodeIsShort }
{}

/// The methods are those of the source in their order, with their names, numbers of parameters, results and pairs.
pub fn methods_are_kept()
    ensures { MethodsAreKept }
{}
