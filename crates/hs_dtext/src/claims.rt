//! The lines of claims.

use hs_text::Text;

/// The line of a claim, by the claim's number from 1.
#[derive(Drop)]
pub enum ClaimLine {
    /// The number of its node, from 1.
    Shown(u32, u32),
    /// Why the claim is open. The cause is one line.
    Open(u32, Text),
}
