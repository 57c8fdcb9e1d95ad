//! The job that the words of a command line name.
//!
//! The words are read as those of one command with a subcommand for each kind of job. [`job`] gives a job
//! exactly where that command takes the words, and the job has the values of the command's matches.
#![tactic(auto)]

mod command;
mod error;
mod jobs;
mod reading;

pub use error::WordsError;
pub use jobs::{Job, Options};
pub use reading::job;
