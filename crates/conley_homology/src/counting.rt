//! The Conley numbers of a set of cells, without cycles.

ghost use Rattle.std.specs.Prelude.{◌≡◌, ◌↔◌, ◌<◌, ◌==◌, if◌then◌else◌, All, IfOk, IsTrue, ℕ, length, slice_index};
ghost use Rattle.conley_algebra.specs.Entries.{Vector};
ghost use Rattle.conley_faces.specs.Face.{IsCellList, IsLocallyClosed};
ghost use Rattle.conley_lefschetz.specs.Conley.{IsRegular, IsConleyBasis, AreConleyNumbers};

use crate::NoMemory;
use crate::column::CellSet;
use crate::elimination::eliminated;
use conley_field::Field;
use conley_lefschetz::{Complex, conley_numbers_are_one, regular_sets_have_zeros};
use std::alloc::Global;

/// 1 at a dimension and 0 at each other below the levels.
fn one_at(alloc: Global, levels: usize, dim: u8) -> Result<Vec<u32>, NoMemory>
    ensures count { IfOk result (λ numbers. length numbers.items ≡ levels) }
    ensures entries { IfOk result (λ numbers. (k : ℕ) → k < levels → slice_index numbers.items k ≡ (if k == dim then 1 else 0)) }
{
    let mut numbers = Vec::new(alloc);
    for level in 0..levels {
        numbers.push(if level == dim as usize { 1 } else { 0 })?;
    }
    Ok(numbers)
}

/// The numbers of a set of one cell: it is a cycle, and no other. Its boundary isn't looked at.
fn of_one_cell<F: Field>(
    alloc: Global,
    complex: &Complex<F>,
    set: &[u32],
) -> Result<Vec<u32>, NoMemory>
    requires cells { IsCellList complex.now.1.faces set.now }
    requires closed { IsLocallyClosed complex.now.1.faces set.now }
    requires one { length set.now ≡ 1 }
    ensures { IfOk result (λ numbers. AreConleyNumbers (F.arithmetic complex.now.0) complex.now.1 set.now numbers.items) }
{
    let numbers = one_at(alloc, complex.levels(), complex.dim(set[0]))?;
    Ok(numbers)
}

/// The numbers of a set by elimination: in each dimension its free cells.
fn of_columns<F: Field>(
    alloc: Global,
    complex: &Complex<F>,
    set: &[u32],
) -> Result<Vec<u32>, NoMemory>
    requires cells { IsCellList complex.now.1.faces set.now }
    requires closed { IsLocallyClosed complex.now.1.faces set.now }
    ensures { IfOk result (λ numbers. AreConleyNumbers (F.arithmetic complex.now.0) complex.now.1 set.now numbers.items) }
{
    let levels = complex.levels();
    let cells = CellSet {
        boundary: complex.boundary(),
        dims: complex.dims(),
        set,
        keeps: false,
    };
    let columns = eliminated(alloc, complex.field(), &cells, levels)?;
    let mut numbers = Vec::new(alloc);
    for level in 0..levels {
        numbers.push(columns.count(&cells, level))?;
    }
    Ok(numbers)
}

/// The numbers of a set by how many cells it has.
fn by_size<F: Field>(alloc: Global, complex: &Complex<F>, set: &[u32]) -> Result<Vec<u32>, NoMemory>
    requires cells { IsCellList complex.now.1.faces set.now }
    requires closed { IsLocallyClosed complex.now.1.faces set.now }
    ensures { IfOk result (λ numbers. AreConleyNumbers (F.arithmetic complex.now.0) complex.now.1 set.now numbers.items) }
{
    if set.len() == 1 {
        return of_one_cell(alloc, complex, set);
    }
    of_columns(alloc, complex, set)
}

/// For each dimension below the levels how many cycles are a basis of the homology of the closure of a locally closed set
/// relative to its mouth: the numbers that `relative` gives, in less time and memory where the cycles aren't wanted.
pub fn numbers<F: Field>(
    alloc: Global,
    complex: &Complex<F>,
    set: &[u32],
) -> Result<Vec<u32>, NoMemory>
    requires cells { IsCellList complex.now.1.faces set.now }
    requires closed { IsLocallyClosed complex.now.1.faces set.now }
    ensures numbers { IfOk result (λ numbers. AreConleyNumbers (F.arithmetic complex.now.0) complex.now.1 set.now numbers.items) }
    ensures regular { IfOk result (λ numbers. IsRegular (F.arithmetic complex.now.0) complex.now.1 set.now ↔ All (λ r. r ≡ 0) numbers.items) }
    ensures one_length { IfOk result (λ numbers. (k r : ℕ) (z : ℕ → Vector) → k < complex.now.1.levels →
        IsConleyBasis (F.arithmetic complex.now.0) complex.now.1 set.now k r z → r ≡ slice_index numbers.items k) }
{
    conley_numbers_are_one(complex);
    regular_sets_have_zeros(complex);
    let numbers = by_size(alloc, complex, set)?;
    Ok(numbers)
}

/// Whether all numbers are 0.
pub fn are_zero(numbers: &[u32]) -> bool
    ensures { IsTrue result ↔ All (λ r. r ≡ 0) numbers.now }
{
    numbers.iter().all(|r| *r == 0)
}

/// Whether a locally closed set is regular: each of its relative cycles is a relative boundary. A set of one cell isn't, and nothing is reduced for it.
pub fn is_regular<F: Field>(
    alloc: Global,
    complex: &Complex<F>,
    set: &[u32],
) -> Result<bool, NoMemory>
    requires cells { IsCellList complex.now.1.faces set.now }
    requires closed { IsLocallyClosed complex.now.1.faces set.now }
    ensures { IfOk result (λ answer. IsTrue answer ↔ IsRegular (F.arithmetic complex.now.0) complex.now.1 set.now) }
{
    let numbers = numbers(alloc, complex, set)?;
    Ok(are_zero(&numbers))
}
