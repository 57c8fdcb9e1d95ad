use hs_line::Fault;

/// Why a text is no derivation. A number that is not told otherwise is that of a line, from 1.
#[derive(Clone, Copy)]
pub enum DTextError {
    /// The first line names this version, which is not known.
    Version(u32),
    /// A premise or the node of a claim is not there yet.
    Forward(u32),
    /// The line is not of its form.
    Line(u32, Fault),
    /// There was no memory.
    Memory,
}
