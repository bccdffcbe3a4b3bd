//! Why lists make no partition into locally closed parts.

ghost use Rattle.std.specs.Prelude.{◌≡◌};
ghost use Rattle.conley_mvf.specs.declared.error.PartError.TheVariants.{NoMemory};

use std::alloc::AllocError;

/// Why lists make no partition into locally closed parts. Lists, places and cells are counted from 0.
#[derive(Clone, Copy, Debug, PartialEq, Eq)]
pub enum PartError {
    /// In this list the number at this place is no cell.
    Unknown(u32, u32),
    /// In this list the cell at this place stood earlier, in this list or one before.
    Repeated(u32, u32),
    /// This list is empty.
    EmptyPart(u32),
    /// This list has a gap: cells x, y and z with y a face of x, z a face of y, x and z in the list and y outside.
    Gap(u32, u32, u32, u32),
    NoMemory,
}

impl From<AllocError> for PartError {
    ghost from_gives = { λ _ e. e ≡ NoMemory };

    fn from(_error: AllocError) -> PartError {
        PartError::NoMemory
    }
}
