//! Why a certificate is rejected.

ghost use Rattle.conley_checker.specs.CheckFault.{no_memory};

use conley_certificate::Reason;
use std::alloc::AllocError;
use thiserror::Error;

/// Why a certificate is no analysis, or that there was no memory to tell.
#[derive(Clone, Copy, Debug, PartialEq, Eq, Error)]
pub enum CheckError {
    /// A law fails: the first that does, with its first place.
    #[error("the certificate is rejected")]
    Rejected(Reason),
    /// Memory is wanting.
    #[error("no memory")]
    NoMemory,
}

impl From<AllocError> for CheckError {
    ghost from_gives = { no_memory };

    fn from(_error: AllocError) -> CheckError {
        CheckError::NoMemory
    }
}
