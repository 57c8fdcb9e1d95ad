//! Lowered programs are sound.
//!
//! The crate has laws alone: each is the contract of a function without a body. A source in normal form that fits,
//! as that of every source that is read does, is lowered to a program that is sound over its definitions: each
//! instruction is over slots that are there, and goes on inside its method. The methods and their pairs are those
//! of the source, and none has over 4,096 instructions.
#![tactic(auto)]

mod laws;

pub use laws::{
    lowered_code_is_short, lowered_programs_are_sound, methods_are_kept, sources_are_lowerable,
};
