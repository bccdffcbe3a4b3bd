//! How a refusal of a file is told.

ghost use Rattle.std.specs.Prelude.{◌≡◌};
ghost use Rattle.conley_first.specs.Told.{words_of};
ghost use Rattle.conley_input.specs.Told.{words_of_file};

use crate::FileFault;
use conley_first::Told;

impl FileFault {
    /// The refusal as it is told: E1 to E13, and the numbers that it keeps. For generated cells the kind stands before the kept number. No memory.
    pub fn told(&self) -> Told
        ensures { words_of result ≡ words_of_file self.now }
    {
        match *self {
            FileFault::NotJson => Told::new(b'E', 1, &[]),
            FileFault::BadShape(member) => Told::new(b'E', 2, &[member as u64]),
            FileFault::UnknownField(order) => Told::new(b'E', 3, &[order as u64]),
            FileFault::TooMany(limit, least) => Told::new(b'E', 4, &[limit as u64, least]),
            FileFault::BadLabel(k) => Told::new(b'E', 5, &[k as u64]),
            FileFault::DuplicateLabel(i, j) => Told::new(b'E', 6, &[i as u64, j as u64]),
            FileFault::BadIncidence(k, why) => Told::new(b'E', 7, &[k as u64, why as u64]),
            FileFault::BadSimplex(k) => Told::new(b'E', 8, &[1, k as u64]),
            FileFault::BadAxes(axes) => Told::new(b'E', 8, &[2, axes as u64]),
            FileFault::BadCube(k) => Told::new(b'E', 8, &[3, k as u64]),
            FileFault::TooManyCells(least) => Told::new(b'E', 8, &[4, least as u64]),
            FileFault::NotBoundary(x, z) => Told::new(b'E', 9, &[x as u64, z as u64]),
            FileFault::UnknownCell(list, place) => Told::new(
                b'E',
                10,
                &[list as u64, place as u64],
            ),
            FileFault::RepeatedCell(list, place) => Told::new(
                b'E',
                11,
                &[list as u64, place as u64],
            ),
            FileFault::EmptyPart(k) => Told::new(b'E', 12, &[k as u64]),
            FileFault::NotLocallyClosed(k, x, y, z) => {
                Told::new(b'E', 13, &[k as u64, x as u64, y as u64, z as u64])
            }
        }
    }
}
