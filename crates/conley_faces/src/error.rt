//! Why lists make no faces.

ghost use Rattle.std.specs.Prelude.{◌≡◌};
ghost use Rattle.conley_faces.specs.declared.error.FacesError.TheVariants.{NoMemory};

use std::alloc::AllocError;

/// Why lists make no faces.
#[derive(Clone, Copy, Debug, PartialEq, Eq)]
pub enum FacesError {
    /// This entry, counted over all lists, is the first that names no cell.
    Range(u32),
    /// This cell is the least that is below itself.
    Cycle(u32),
    NoMemory,
}

impl From<AllocError> for FacesError {
    ghost from_gives = { λ _ e. e ≡ NoMemory };

    fn from(_error: AllocError) -> FacesError {
        FacesError::NoMemory
    }
}
