ghost use Rattle.std.specs.Prelude.{◌≡◌, IfOk};

use hs_text::{NoMemory, Text};
use sqlite_items::Items;
use std::alloc::Global;

/// A name, `self` or `res`, and where it stands.
#[derive(Debug, Drop)]
pub struct Ident {
    pub text: Text,
    /// The offset of its first byte.
    pub at: u32,
}

impl Ident {
    /// An equal name.
    pub fn copy(&self, alloc: Global) -> Result<Ident, NoMemory>
        ensures { IfOk result (λ t. t ≡ self.now) }
    {
        Ok(Ident {
            text: self.text.copy(alloc)?,
            at: self.at,
        })
    }
}

pub fn copy_idents(alloc: Global, idents: &[Ident]) -> Result<Items<Ident>, NoMemory>
    ensures { IfOk result (λ all. all ≡ idents.now) }
{
    let mut all = Items::new(alloc);
    for ident in idents {
        all.push(ident.copy(alloc)?)?;
    }
    Ok(all)
}
