//! A search for derivations, over any calculus.
//!
//! `prove` answers the first derivations of a goal, in the order in which the rules stand at each goal, or why there is
//! none: the tree of the goal has too many places, a question has no answer, the rank was too small, or what is to
//! blame. It knows nothing of goals and rules but what the trait `Calculus` says. The functions of `laws` have no body:
//! their contracts are the laws of trees and derivations that the layers above use.
#![tactic(auto)]

mod answer;
mod budget;
mod calculus;
mod extend;
mod forced;
mod join;
mod laws;
mod place;
mod search;

pub use answer::{Answer, Bounds, Cause};
pub use calculus::{Calculus, Premises, Stop};
pub use laws::{derivations_are_by_choices, places_are_by_choices, search_is_complete};
pub use place::Place;
pub use search::prove;
