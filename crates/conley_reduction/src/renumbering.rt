//! What is left, numbered anew.

ghost use Rattle.std.specs.Prelude.{◌≡◌, ◌≢◌, ◌≤◌, ◌<◌, ◌^◌, ℕ, All, IfOk, length, slice_index_or};
ghost use Rattle.std.specs.List.Sorted.{IsStrictlyIncreasing};
ghost use Rattle.conley_chains.specs.Matrix.{entry, column_count, IsTable};
ghost use Rattle.conley_homotopy.specs.Graded.{IsStrict};
ghost use Rattle.conley_homotopy.specs.Reduction.{IsReducedTo};
ghost use Rattle.conley_order.specs.Preorder.{IsBelow};
ghost use Rattle.conley_graded.specs.Structure.{Structure, generators_of};
ghost use Rattle.conley_equivalence.specs.MapTables.{maps_of, AreTables};
ghost use Rattle.conley_reduction.specs.Columns.{code_at, AreColumns};
ghost use Rattle.conley_reduction.specs.Work.{IsClear, IsWork};

use crate::Reduced;
use crate::numbers::{bases_of, dims_of, numbers_left};
use crate::work::{Work, reduced_in_place};
use conley_chains::{Chain, Matrix, NoMemory};
use conley_equivalence::Equivalence;
use conley_field::Field;
use conley_graded::GradedComplex;
use conley_lists::all_numbers;
use conley_order::Grading;
use std::alloc::{AllocError, Global};

/// The listed rows and columns, numbered anew.
fn part_of<F: Field>(
    alloc: Global,
    field: &F,
    n: usize,
    columns: Vec<Chain>,
    rows: &[u32],
    places: &[u32],
) -> Result<Matrix, NoMemory>
    requires columns { AreColumns (F.arithmetic field.now) n columns.items }
    requires rows_ascend { IsStrictlyIncreasing rows.now }
    requires rows_few { length rows.now < 2 ^ 32 }
    requires places_within { All (λ x. x < n) places.now }
    ensures entries { IfOk result (λ part. (i j : ℕ) → i < length rows.now → j < length places.now
        → entry part i j ≡ code_at columns.items (slice_index_or rows.now i 0) (slice_index_or places.now j 0)) }
    ensures table { IfOk result (IsTable (F.arithmetic field.now) (length rows.now) (length places.now)) }
{
    let _field = field;
    let matrix = Matrix::from_columns(n, columns);
    let part = matrix.restrict(alloc, rows, places)?;
    let _kept = part.rows();
    Ok(part)
}

/// The generators that are left as a complex, with the maps to it and back.
fn renumbered<'g, F: Field, G: Grading>(
    alloc: Global,
    graded: &GradedComplex<'g, F, G>,
    work: Work,
) -> Result<Reduced<'g, F, G>, NoMemory>
    requires few { length graded.now.base < 2 ^ 32 }
    requires work { IsWork (F.arithmetic graded.now.field) (IsBelow (G.cell_count graded.now.grading) (G.is_below graded.now.grading))
        (generators_of graded.now) work.left.items work.w.items work.phi.items work.psi.items work.gamma.items }
    requires strict { IsClear (IsBelow (G.cell_count graded.now.grading) (G.is_below graded.now.grading)) (generators_of graded.now) work.left.items
        work.w.items (length graded.now.base) }
    ensures field { IfOk result (λ r. r.complex.field ≡ graded.now.field) }
    ensures grading { IfOk result (λ r. r.complex.grading ≡ graded.now.grading) }
    ensures strict { IfOk result (λ r. IsStrict (IsBelow (G.cell_count graded.now.grading) (G.is_below graded.now.grading)) (generators_of r.complex)) }
    ensures tables { IfOk result (λ r. AreTables (F.arithmetic graded.now.field) (length graded.now.base) (length r.complex.base) r.equivalence) }
    ensures reduction { IfOk result (λ r. IsReducedTo (F.arithmetic graded.now.field) (IsBelow (G.cell_count graded.now.grading)
        (G.is_below graded.now.grading)) (generators_of graded.now) (generators_of r.complex) (maps_of r.equivalence)) }
{
    let n = graded.count();
    let field = graded.field();
    let Work {
        left,
        w,
        rows: _rows,
        phi,
        psi,
        gamma,
    } = work;
    let numbers = numbers_left(alloc, &left)?;
    let every = all_numbers(alloc, n)?;
    let kept = numbers.as_slice();
    let all = every.as_slice();
    let base = bases_of(alloc, graded, kept)?;
    let dims = dims_of(alloc, graded, kept)?;
    let matrix = part_of(alloc, field, n, w, kept, kept)?;
    let phi = part_of(alloc, field, n, phi, all, kept)?;
    let psi_rows = part_of(alloc, field, n, psi, all, kept)?;
    let psi = psi_rows.transpose(alloc)?;
    let gamma = Matrix::from_columns(n, gamma).transpose(alloc)?;
    let gamma2 = Matrix::empty(alloc, kept.len(), kept.len())?;
    let complex = GradedComplex::new(*field, graded.grading(), base, dims, matrix);
    let equivalence = Equivalence {
        phi,
        psi,
        gamma,
        gamma2,
    };
    Ok(Reduced {
        complex,
        equivalence,
    })
}

/// A strict complex that is equivalent to the one given, on generators of it in their order. Pairs inside a grade are taken out in
/// place, column by column, and what is left is numbered anew.
pub fn reduce<'g, F: Field, G: Grading>(
    alloc: Global,
    graded: &GradedComplex<'g, F, G>,
) -> Result<Reduced<'g, F, G>, NoMemory>
    ensures field { IfOk result (λ r. r.complex.field ≡ graded.now.field) }
    ensures grading { IfOk result (λ r. r.complex.grading ≡ graded.now.grading) }
    ensures strict { IfOk result (λ r. IsStrict (IsBelow (G.cell_count graded.now.grading) (G.is_below graded.now.grading)) (generators_of r.complex)) }
    ensures tables { IfOk result (λ r. AreTables (F.arithmetic graded.now.field) (length graded.now.base) (length r.complex.base) r.equivalence) }
    ensures reduction { IfOk result (λ r. IsReducedTo (F.arithmetic graded.now.field) (IsBelow (G.cell_count graded.now.grading)
        (G.is_below graded.now.grading)) (generators_of graded.now) (generators_of r.complex) (maps_of r.equivalence)) }
{
    if graded.count() > u32::MAX as usize {
        return Err(AllocError);
    }
    let work = reduced_in_place(alloc, graded)?;
    renumbered(alloc, graded, work)
}
