//! Why a program did not do its work.

ghost use Rattle.std.specs.Prelude.{◌≡◌};
ghost use Rattle.command_line.specs.Status.{failure_status};

use std::alloc::{AllocError, AllocFailed};
use std::io;

/// Why a program did not do its work.
#[derive(Drop)]
pub enum Failure {
    /// The arguments ask for what cannot be. This says why.
    Arguments(String),
    /// The work failed.
    Work(anyhow::Error),
}

impl From<anyhow::Error> for Failure {
    ghost from_gives = { λ _ failure. failure_status failure ≡ 1 };

    fn from(error: anyhow::Error) -> Failure {
        Failure::Work(error)
    }
}

impl From<io::Error> for Failure {
    ghost from_gives = { λ _ failure. failure_status failure ≡ 1 };

    fn from(error: io::Error) -> Failure {
        Failure::Work(error.into())
    }
}

impl From<AllocError> for Failure {
    ghost from_gives = { λ _ failure. failure_status failure ≡ 1 };

    fn from(error: AllocError) -> Failure {
        Failure::Work(error.into())
    }
}

impl<T: Drop> From<AllocFailed<T>> for Failure {
    ghost from_gives = { λ _ failure. failure_status failure ≡ 1 };

    fn from(_error: AllocFailed<T>) -> Failure {
        Failure::Work(AllocError.into())
    }
}
