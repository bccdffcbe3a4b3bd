//! Why a file stands for no problem.

ghost use Rattle.std.specs.Prelude.{◌≡◌, IfOk, IsErrOf};
ghost use Rattle.conley_input.specs.declared.error.InputError.TheVariants.{NoMemory};

use std::alloc::AllocError;
use thiserror::Error;

/// A refusal of a file, with the place and the numbers that it keeps. Positions count from 0.
/// Of several refusals that hold, the one is given that stands first here; of one kind the one at the first place.
#[derive(Clone, Copy, Debug, PartialEq, Eq)]
pub enum FileFault {
    /// E1: the bytes are no JSON.
    NotJson,
    /// E2: the member with this number is missing or has another form.
    BadShape(u8),
    /// E3: no field has this order.
    UnknownField(u32),
    /// E4: a limit is passed: its number, and the least number that passes it.
    TooMany(u8, u64),
    /// E5: this label breaks the rule of labels. The labels of cells or vertices are counted first, then the names of sets.
    BadLabel(u32),
    /// E6: two cells, the lesser first, have equal labels.
    DuplicateLabel(u32, u32),
    /// E7: this incidence has a fault: 1 a cell out of range, 2 dimensions that aren't one apart, 3 the scalar zero, 4 a place that stood before.
    BadIncidence(u32, u8),
    /// E8: this simplex has a fault.
    BadSimplex(u32),
    /// E8: this number of axes is none that is allowed.
    BadAxes(u32),
    /// E8: this cube has a fault.
    BadCube(u32),
    /// E8: the generated complex has so many cells or more.
    TooManyCells(u32),
    /// E9: the boundary of the boundary of the first cell isn't zero at the second.
    NotBoundary(u32, u32),
    /// E10: no cell has the label at this list and place. The lists of parts are counted first, then those of named sets.
    UnknownCell(u32, u32),
    /// E11: in a field given whole, the cell at this list and place stood earlier.
    RepeatedCell(u32, u32),
    /// E12: this listed part is empty.
    EmptyPart(u32),
    /// E13: in a field given whole, this part isn't locally closed: it has a gap of these three cells.
    NotLocallyClosed(u32, u32, u32, u32),
}

/// Why no problem was read.
#[derive(Clone, Copy, Debug, PartialEq, Eq, Error)]
pub enum InputError {
    /// The file is refused.
    #[error("the file is refused")]
    Bad(FileFault),
    /// Memory is wanting.
    #[error("no memory")]
    NoMemory,
}

impl From<AllocError> for InputError {
    ghost from_gives = { λ _ e. e ≡ NoMemory };

    fn from(_: AllocError) -> Self {
        InputError::NoMemory
    }
}

/// A place as it is kept. No list that memory holds has so many places that it doesn't fit.
pub(crate) fn kept(place: usize) -> Result<u32, InputError>
    ensures ok { IfOk result (λ n. n ≡ place) }
    ensures err { (fault : _) → IsErrOf result (InputError.Bad fault) → ⊥ }
{
    if place > u32::MAX as usize {
        return Err(InputError::NoMemory);
    }
    Ok(place as u32)
}
