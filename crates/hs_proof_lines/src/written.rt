//! What is written so far.

ghost use Rattle.std.specs.Prelude.{◌≡◌, ◌++◌, ◌∷◌, [], suc, length, IfOk, OnOk};
ghost use Rattle.hs_dtext.specs.declared.claims.ClaimLine.TheVariants.{Shown, Open};

use crate::numbers::number_of;
use hs_dtext::ClaimLine;
use hs_node::Node;
use hs_pure::NoMemory;
use hs_text::Text;
use sqlite_items::Items;

/// The nodes, and a line for each claim so far.
#[derive(Drop)]
pub struct Written {
    pub nodes: Items<Node>,
    pub lines: Items<ClaimLine>,
}

/// What is found of a pair.
#[derive(Drop)]
pub enum Outcome {
    /// Nodes of which the last concludes it.
    Proved(Items<Node>),
    /// Why it is open.
    Open(Text),
}

impl Written {
    // The number of the next claim.
    fn next(&self) -> Result<u32, NoMemory>
        ensures { IfOk result (λ k. k ≡ suc (length self.now.lines)) }
    {
        match number_of(self.lines.len())?.checked_add(1) {
            Some(number) => Ok(number),
            None => Err(NoMemory),
        }
    }

    /// Adds the line of the next claim, which the node of this number concludes.
    pub fn push_shown(&mut self, node: u32) -> Result<(), NoMemory>
        ensures { OnOk result ((self.new.nodes ≡ self.old.nodes) × (self.new.lines ≡ self.old.lines ++ Shown (suc (length self.old.lines)) node ∷ [])) }
    {
        let number = self.next()?;
        self.lines.push(ClaimLine::Shown(number, node))?;
        Ok(())
    }

    /// Adds the line of the next claim, which is open for this cause.
    pub fn push_open(&mut self, cause: Text) -> Result<(), NoMemory>
        ensures { OnOk result ((self.new.nodes ≡ self.old.nodes) × (self.new.lines ≡ self.old.lines ++ Open (suc (length self.old.lines)) cause ∷ [])) }
    {
        let number = self.next()?;
        self.lines.push(ClaimLine::Open(number, cause))?;
        Ok(())
    }
}
