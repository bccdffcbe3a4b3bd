//! How many levels dimensions have.

ghost use Rattle.std.specs.Prelude.{◌≡◌, ◌<◌, ◌≤◌, ◌+◌};
ghost use Rattle.conley_lefschetz.specs.Complex.{IsLevels};

/// The least number that isn't below the levels and is above the dimension.
fn raised(levels: usize, dim: u8) -> usize
    ensures more { levels ≤ dim → result ≡ dim + 1 }
    ensures same { dim < levels → result ≡ levels }
{
    if dim as usize >= levels {
        return dim as usize + 1;
    }
    levels
}

/// One more than the greatest dimension, 0 where there is none.
pub(crate) fn levels_of(dims: &[u8]) -> usize
    ensures { IsLevels dims.now result }
{
    let mut levels = 0;
    for dim in dims {
        levels = raised(levels, *dim);
    }
    levels
}
