//! The printed causes of claims that are not proved.
//!
//! [`why`] prints the cause for which a search has no proof, under the source names of the claim whose search it is.
#![tactic(auto)]

mod causes;

pub use causes::why;
