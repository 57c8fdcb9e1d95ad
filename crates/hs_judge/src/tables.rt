use hs_core::Program;
use hs_heap::Defs;

/// What nodes are judged by: definitions, a program over them, and how many atoms a stage of a decision may have.
#[derive(Clone, Copy)]
pub struct Tables<'a> {
    pub defs: &'a Defs,
    pub program: &'a Program,
    pub atoms: u64,
}
