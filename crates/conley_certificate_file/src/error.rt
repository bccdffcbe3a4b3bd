//! Why bytes stand for no certificate.

ghost use Rattle.std.specs.Prelude.{◌≡◌, IsErrOf};
ghost use Rattle.conley_certificate_file.specs.declared.error.CertError.TheVariants.{NoMemory};

use conley_first::Told;
use std::alloc::AllocError;
use thiserror::Error;

/// A refusal of a certificate, with the place and the numbers that it keeps. Positions count from 0.
/// Of several refusals that hold, the one is given that stands first here; of one kind the one at the first place, members in the order of their numbers.
#[derive(Clone, Copy, Debug, PartialEq, Eq)]
pub enum CertFault {
    /// C1: the bytes are no JSON.
    NotJson,
    /// C2: the member with this number is missing or has another form.
    BadShape(u8),
    /// C3: the member with this number, the version or the order of the scalars, is this number and not the one that it has to be.
    Differs(u8, u32),
    /// C4: the member with the first number has a fault at the item with the second.
    BadPlace(u8, u32),
}

impl CertFault {
    ghost use Rattle.conley_first.specs.Told.{words_of};
    ghost use Rattle.conley_certificate_file.specs.Told.{words_of_fault};

    /// How the refusal is told: C1 to C4, with the numbers that it keeps. No memory.
    pub fn told(&self) -> Told
        ensures { words_of result ≡ words_of_fault self.now }
    {
        match *self {
            CertFault::NotJson => Told::new(b'C', 1, &[]),
            CertFault::BadShape(member) => Told::new(b'C', 2, &[member as u64]),
            CertFault::Differs(member, value) => Told::new(b'C', 3, &[member as u64, value as u64]),
            CertFault::BadPlace(member, k) => Told::new(b'C', 4, &[member as u64, k as u64]),
        }
    }
}

/// Why no certificate was read.
#[derive(Clone, Copy, Debug, PartialEq, Eq, Error)]
pub enum CertError {
    /// The certificate is refused.
    #[error("the certificate is refused")]
    Bad(CertFault),
    /// Memory is wanting.
    #[error("no memory")]
    NoMemory,
}

impl From<AllocError> for CertError {
    ghost from_gives = { λ _ e. e ≡ NoMemory };

    fn from(_: AllocError) -> Self {
        CertError::NoMemory
    }
}

/// The refusal of item k of a member. No list that memory holds has an item whose number doesn't fit.
pub(crate) fn bad_place(member: u8, k: usize) -> CertError
    ensures { (fault : _) → result ≡ CertError.Bad fault → fault ≡ CertFault.BadPlace member k }
{
    if k > u32::MAX as usize {
        return CertError::NoMemory;
    }
    CertError::Bad(CertFault::BadPlace(member, k as u32))
}
