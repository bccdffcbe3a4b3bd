//! Relative homology of a set of cells.

ghost use Rattle.std.specs.Prelude.{◌≡◌, ◌↔◌, ◌<◌, All, IfOk, ℕ, slice_index};
ghost use Rattle.conley_algebra.specs.Entries.{Vector};
ghost use Rattle.conley_faces.specs.Face.{IsCellList, IsLocallyClosed};
ghost use Rattle.conley_lefschetz.specs.Conley.{IsRegular, IsConleyBasis, AreConleyNumbers};
ghost use Rattle.conley_homology.specs.Homology.{IsHomology};

use crate::NoMemory;
use crate::column::CellSet;
use crate::elimination::eliminated;
use conley_chains::Chain;
use conley_field::Field;
use conley_lefschetz::Complex;
use std::alloc::Global;

/// Relative cycles of a set, those of lower dimensions first, and how many there are of each dimension below the levels.
#[derive(Drop)]
pub struct Homology {
    /// `numbers[k]` cycles have dimension k.
    pub numbers: Vec<u32>,
    pub cycles: Vec<Chain>,
}

/// The homology of the closure of a locally closed set relative to its mouth: in each dimension below the levels
/// cycles of which every relative cycle is exactly one combination, plus a relative boundary.
pub fn relative<F: Field>(
    alloc: Global,
    complex: &Complex<F>,
    set: &[u32],
) -> Result<Homology, NoMemory>
    requires cells { IsCellList complex.now.1.faces set.now }
    requires closed { IsLocallyClosed complex.now.1.faces set.now }
    ensures cycles { IfOk result (λ h. IsHomology (F.arithmetic complex.now.0) complex.now.1 set.now h.numbers.items h.cycles.items) }
    ensures numbers { IfOk result (λ h. AreConleyNumbers (F.arithmetic complex.now.0) complex.now.1 set.now h.numbers.items) }
    ensures regular { IfOk result (λ h. IsRegular (F.arithmetic complex.now.0) complex.now.1 set.now ↔ All (λ r. r ≡ 0) h.numbers.items) }
    ensures one_length { IfOk result (λ h. (k r : ℕ) (z : ℕ → Vector) → k < complex.now.1.levels →
        IsConleyBasis (F.arithmetic complex.now.0) complex.now.1 set.now k r z → r ≡ slice_index h.numbers.items k) }
{
    let levels = complex.levels();
    let cells = CellSet {
        boundary: complex.boundary(),
        dims: complex.dims(),
        set,
        keeps: true,
    };
    let columns = eliminated(alloc, complex.field(), &cells, levels)?;
    let mut numbers = Vec::new(alloc);
    let mut cycles = Vec::new(alloc);
    for level in 0..levels {
        numbers.push(columns.collect(alloc, &cells, level, &mut cycles)?)?;
    }
    Ok(Homology { numbers, cycles })
}
