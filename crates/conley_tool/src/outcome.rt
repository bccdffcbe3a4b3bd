//! What a run came to.

ghost use Rattle.std.specs.Prelude.{◌≡◌};
ghost use Rattle.conley_first.specs.Told as told;
ghost use Rattle.conley_tool.specs.Line.{words_of, status_of};
ghost use Rattle.conley_tool.specs.declared.outcome.Outcome.TheVariants.{NoMemory};

use conley_certificate::Reason;
use conley_certificate_file::CertFault;
use conley_first::Told;
use conley_input::FileFault;
use std::alloc::AllocError;

/// Why the input of a run is refused.
#[derive(Clone, Copy, Debug, PartialEq, Eq)]
pub enum Fault {
    /// The file of the problem is refused.
    File(FileFault),
    /// There are so many Morse sets, more than 2,000.
    Morse(u32),
    /// The certificate is refused.
    Cert(CertFault),
}

/// What a run came to.
#[derive(Clone, Copy, Debug, PartialEq, Eq)]
pub enum Outcome {
    /// The text was written whole.
    Done,
    /// The certificate is an analysis, which was written.
    Accepted,
    /// A file stands for no problem, or for no certificate; or a problem has too many Morse sets.
    Refused(Fault),
    /// The certificate is no analysis: the first law that fails.
    Rejected(Reason),
    /// The words have no form.
    Usage,
    /// A file couldn't be read.
    ReadFault,
    /// A file has more than `FILE_LIMIT` bytes, or a certificate more than `CERTIFICATE_LIMIT`.
    TooLong,
    /// The text couldn't be written whole.
    WriteFault,
    /// Memory is wanting.
    NoMemory,
}

impl From<AllocError> for Outcome {
    ghost from_gives = { λ _ o. o ≡ NoMemory };

    fn from(_error: AllocError) -> Outcome {
        Outcome::NoMemory
    }
}

impl Fault {
    /// The refusal as it is told: its number, and what it keeps. No memory.
    pub fn told(&self) -> Told
        ensures { told.words_of result ≡ words_of self.now }
    {
        match self {
            Fault::File(fault) => fault.told(),
            Fault::Morse(count) => Told::new(b'E', 14, &[*count as u64]),
            Fault::Cert(fault) => fault.told(),
        }
    }
}

impl Outcome {
    /// The exit status of the program: 0 done or accepted, 1 refused or too long, 2 usage, 3 read fault, 4 write fault, 5 no memory, 6 rejected. No memory.
    pub fn status(&self) -> u8
        ensures { result ≡ status_of self.now }
    {
        match self {
            Outcome::Done | Outcome::Accepted => 0,
            Outcome::Refused(_) | Outcome::TooLong => 1,
            Outcome::Rejected(_) => 6,
            Outcome::Usage => 2,
            Outcome::ReadFault => 3,
            Outcome::WriteFault => 4,
            Outcome::NoMemory => 5,
        }
    }
}
