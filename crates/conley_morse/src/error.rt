//! Why no decomposition is given.

ghost use Rattle.std.specs.Prelude.{◌≡◌};
ghost use Rattle.conley_morse.specs.declared.error.MorseError.TheVariants.{NoMemory};

use std::alloc::AllocError;

/// Why no decomposition is given.
#[derive(Clone, Copy, Debug, PartialEq, Eq)]
pub enum MorseError {
    /// There are so many Morse sets, more than 2,000.
    TooManyMorse(u32),
    NoMemory,
}

impl From<AllocError> for MorseError {
    ghost from_gives = { λ _ e. e ≡ NoMemory };

    fn from(_error: AllocError) -> MorseError {
        MorseError::NoMemory
    }
}
