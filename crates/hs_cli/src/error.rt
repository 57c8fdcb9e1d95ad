//! Why words name no job.

ghost use Rattle.std.specs.Prelude.{◌≡◌, ◌≢◌};
ghost use Rattle.clap.specs.Words.{kind_of};
ghost use Rattle.hs_cli.specs.declared.error.WordsError.TheVariants.{Memory, Words};

use clap::error::ErrorKind;
use std::alloc::AllocError;
use thiserror::Error;

#[derive(Debug, Drop, Error)]
pub enum WordsError {
    /// The command does not take the words, or they ask for its help.
    #[error("the words name no job")]
    Words,
    #[error("out of memory")]
    Memory,
}

impl From<AllocError> for WordsError {
    ghost from_gives = { λ _ e. e ≡ Memory };

    fn from(_: AllocError) -> WordsError {
        WordsError::Memory
    }
}

impl From<clap::Error> for WordsError {
    ghost use Rattle.clap.specs.declared.error.ErrorKind.TheVariants.{OutOfMemory};

    ghost from_gives = { λ error e. e ≡ Words → kind_of error ≢ OutOfMemory };

    fn from(error: clap::Error) -> WordsError {
        match error.kind() {
            ErrorKind::OutOfMemory => WordsError::Memory,
            _ => WordsError::Words,
        }
    }
}
