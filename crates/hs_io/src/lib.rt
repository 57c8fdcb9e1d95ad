//! The outside of the tool: files that are read whole, and a sink that takes bytes.
//!
//! [`Files`] and [`Sink`] say what every such outside promises, whatever it does:
//!
//! - A fetch answers the whole file or an error. Where the files are known, as in memory, the bytes
//!   are those of the first file with that name.
//! - A put takes the first bytes of a piece, at least one unless the piece is empty. Where it is
//!   known what was written, it grew by just these bytes.
//! - `Failed` comes only where the count of faults rose, so an outside whose count stands never
//!   fails.
//!
//! [`MemFiles`] and [`MemSink`] hold all in memory and fail where they are told to; [`SureFiles`]
//! and [`SureSink`] never fail. [`RealFiles`] and [`RealSink`] are the system's files and standard
//! output. They are the trusted edge: no contract knows what the system gives or takes.
#![tactic(auto)]

mod files;
mod shared;
mod sink;

pub use files::{FetchError, Files, MemFiles, RealFiles, SureFiles};
pub use sink::{MemSink, PutError, RealSink, Sink, SureSink};
