//! Why lists make no digraph.

ghost use Rattle.std.specs.Prelude.{◌≡◌};
ghost use Rattle.conley_digraph.specs.declared.error.DigraphError.TheVariants.{NoMemory};

use std::alloc::AllocError;

/// Why lists make no digraph.
#[derive(Clone, Copy, Debug, PartialEq, Eq)]
pub enum DigraphError {
    /// This entry, counted over all lists, is the first that is no node.
    Range(u32),
    NoMemory,
}

impl From<AllocError> for DigraphError {
    ghost from_gives = { λ _ e. e ≡ NoMemory };

    fn from(_error: AllocError) -> DigraphError {
        DigraphError::NoMemory
    }
}
