//! What the normal form of a source is: laws, each the contract of a function without a body.
#![tactic(auto)]

mod laws;

pub use laws::{
    definitions_are_sound, goals_are_well_formed, goals_have_disjuncts, methods_are_declared,
    names_are_kept, pairs_are_normal, pairs_have_disjuncts,
};
