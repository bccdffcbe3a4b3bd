//! Why a listing makes no complex.

ghost use Rattle.std.specs.Prelude.{◌≡◌};
ghost use Rattle.conley_lefschetz.specs.declared.error.ComplexError.TheVariants.{NoMemory};

use std::alloc::AllocError;

/// Why a listing makes no complex. Cells, labels and incidences are counted from 0.
#[derive(Clone, Copy, Debug, PartialEq, Eq)]
pub enum ComplexError {
    /// These two labels are equal, the first before the second.
    DuplicateLabel(u32, u32),
    /// This incidence has this fault: 1 a cell out of range, 2 other dimensions than one apart, 3 zero, 4 its cells stood before.
    BadIncidence(u32, u8),
    /// The boundary of the boundary of the first cell isn't zero at the second.
    NotBoundary(u32, u32),
    NoMemory,
}

impl From<AllocError> for ComplexError {
    ghost from_gives = { λ _ e. e ≡ NoMemory };

    fn from(_error: AllocError) -> ComplexError {
        ComplexError::NoMemory
    }
}
