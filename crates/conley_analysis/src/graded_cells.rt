//! A complex as a graded complex.

ghost use Rattle.std.specs.Prelude.{◌≡◌, ◌<◌, ◌^◌, ℕ, true, IfOk, length, slice_index_or};
ghost use Rattle.conley_lists.specs.Lists.{IsDigraph, ListedStep};
ghost use Rattle.conley_order.specs.ClassRows.{is_at_or_below};

use crate::NoMemory;
use conley_field::Field;
use conley_graded::GradedComplex;
use conley_lefschetz::Complex;
use conley_lists::all_numbers;
use conley_order::ReachRows;
use std::alloc::Global;

/// The complex, graded by a preorder of its cells that puts faces below: each cell is its own base.
pub fn over_reach<'g, F: Field>(
    alloc: Global,
    complex: &Complex<F>,
    grading: &'g ReachRows,
) -> Result<GradedComplex<'g, F, ReachRows>, NoMemory>
    requires cells { length grading.now.class_of ≡ length complex.now.1.dims }
    requires digraph { IsDigraph complex.now.1.faces }
    requires down { (x y : ℕ) → ListedStep complex.now.1.faces x y → is_at_or_below grading.now y x ≡ true }
    ensures field { IfOk result (λ g. g.field ≡ complex.now.0) }
    ensures grading { IfOk result (λ g. g.grading ≡ grading.now) }
    ensures count { IfOk result (λ g. length g.base ≡ length complex.now.1.dims) }
    ensures bases { IfOk result (λ g. (x : ℕ) → x < length complex.now.1.dims → slice_index_or g.base x 0 ≡ x) }
    ensures dims { IfOk result (λ g. g.dims ≡ complex.now.1.dims) }
    ensures matrix { IfOk result (λ g. g.matrix ≡ complex.now.1.boundary) }
{
    let base = all_numbers(alloc, complex.count())?;
    let dims = Vec::from_slice(alloc, complex.dims())?;
    let _rows = complex.boundary().rows();
    let matrix = complex.boundary().copy(alloc)?;
    Ok(GradedComplex::new(*complex.field(), grading, base, dims, matrix))
}
