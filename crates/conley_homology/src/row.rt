//! One column with many entries, reduced as a row of codes: a sum takes as long as the column that is added.

ghost use Rattle.std.specs.Prelude.{◌≡◌, ◌≢◌, ◌<◌, ◌≤◌, ◌+◌, All, IfOk, ℕ, length, slice_index};
ghost use Rattle.conley_chains.specs.Chain.{coefficient, HasCodes};
ghost use Rattle.conley_homology.specs.Own.{place_in, owner_at, IsOwnComplex, IsDone, IsEnd, IsChainFor, IsReducedSoFar};
ghost use Rattle.conley_homology.specs.Row.{IsRowFor};
ghost use Rattle.conley_lefschetz.specs.Listing.{dim_in};

use crate::NoMemory;
use crate::column::{CellSet, Column, Columns, owner_of};
use conley_chains::Chain;
use conley_field::{Field, Scalar};
use std::alloc::Global;

/// This many codes of zero.
fn zeros(alloc: Global, count: usize) -> Result<Vec<Scalar>, NoMemory>
    ensures count { IfOk result (λ row. length row.items ≡ count) }
    ensures zero { IfOk result (λ row. (x : ℕ) → slice_index row.items x ≡ 0) }
{
    let mut row = Vec::new(alloc);
    for turn in 0..count {
        row.push(Scalar::of(0))?;
    }
    Ok(row)
}

/// One more than the last place before `from` whose cell has a code, or 0.
fn end_in(set: &[u32], row: &[Scalar], from: usize) -> usize
    requires cells { All (λ x. x < length row.now) set.now }
    requires from { from ≤ length set.now }
    ensures within { result ≤ from }
    ensures past { (k : ℕ) → result ≤ k → k < from → slice_index row.now (place_in set.now k) ≡ 0 }
    ensures lead { (p : ℕ) → result ≡ p + 1 → slice_index row.now (place_in set.now p) ≢ 0 }
{
    let mut end = from;
    while end > 0 {
        if row[set[end - 1] as usize].code() != 0 {
            return end;
        }
        end -= 1;
    }
    0
}

/// By what the source is multiplied to clear a code.
fn multiple_of<F: Field>(field: &F, code: Scalar, source: Scalar) -> Scalar
    requires code_below { code < (F.arithmetic field.now).order }
    requires source_below { source < (F.arithmetic field.now).order }
    requires some { source ≢ 0 }
    ensures below { result < (F.arithmetic field.now).order }
    ensures clears { (F.arithmetic field.now).add code ((F.arithmetic field.now).mul result source) ≡ 0 }
{
    field.neg(field.mul(code, field.inv(source)))
}

/// The column of cell i reduced as a row of codes, until it ends where no other does.
fn reduced_row<F: Field>(
    alloc: Global,
    field: &F,
    cells: &CellSet,
    columns: &Columns,
    i: usize,
    row: &mut [Scalar],
    kept: Chain,
    from: usize,
) -> Result<Column, NoMemory>
    requires complex { IsOwnComplex (F.arithmetic field.now) cells.now.boundary.now cells.now.dims.now cells.now.set.now }
    requires so_far { IsReducedSoFar (F.arithmetic field.now) cells.now.boundary.now cells.now.dims.now cells.now.set.now cells.now.keeps
        (IsDone cells.now.dims.now cells.now.set.now (dim_in cells.now.dims.now (place_in cells.now.set.now i)) i)
        columns.now.kept.items columns.now.reduced.items columns.now.owner.items }
    requires cell { i < length cells.now.set.now }
    requires row { IsRowFor (F.arithmetic field.now) cells.now.boundary.now cells.now.dims.now cells.now.set.now cells.now.keeps i kept row.old from }
    ensures chains { IfOk result (λ column. IsChainFor (F.arithmetic field.now) cells.now.boundary.now cells.now.dims.now cells.now.set.now cells.now.keeps i
        column.kept column.reduced) }
    ensures end { IfOk result (λ column. IsEnd cells.now.set.now column.reduced column.end) }
    ensures free { IfOk result (λ column. (p : ℕ) → column.end ≡ p + 1 → owner_at columns.now.owner.items p ≡ None) }
{
    let mut kept = kept;
    let mut end = from;
    while let Some(source) = owner_of(&columns.owner, end) {
        let other = &columns.reduced[source as usize];
        let cell = cells.set[end - 1];
        let by = multiple_of(field, row[cell as usize], other.entry(cell));
        other.add_to(field, by, row);
        kept = kept.plus(alloc, field, by, &columns.kept[source as usize])?;
        end = end_in(cells.set, row, end);
    }
    let reduced = Chain::from_row(alloc, row)?;
    Ok(Column { kept, reduced, end })
}

/// The column of cell i, as far as it is reduced, reduced as a row of codes.
pub(crate) fn reduced_as_row<F: Field>(
    alloc: Global,
    field: &F,
    cells: &CellSet,
    columns: &Columns,
    i: usize,
    column: Column,
) -> Result<Column, NoMemory>
    requires complex { IsOwnComplex (F.arithmetic field.now) cells.now.boundary.now cells.now.dims.now cells.now.set.now }
    requires so_far { IsReducedSoFar (F.arithmetic field.now) cells.now.boundary.now cells.now.dims.now cells.now.set.now cells.now.keeps
        (IsDone cells.now.dims.now cells.now.set.now (dim_in cells.now.dims.now (place_in cells.now.set.now i)) i)
        columns.now.kept.items columns.now.reduced.items columns.now.owner.items }
    requires cell { i < length cells.now.set.now }
    requires chains { IsChainFor (F.arithmetic field.now) cells.now.boundary.now cells.now.dims.now cells.now.set.now cells.now.keeps i column.kept
        column.reduced }
    requires end { IsEnd cells.now.set.now column.reduced column.end }
    ensures chains { IfOk result (λ column. IsChainFor (F.arithmetic field.now) cells.now.boundary.now cells.now.dims.now cells.now.set.now cells.now.keeps i
        column.kept column.reduced) }
    ensures end { IfOk result (λ column. IsEnd cells.now.set.now column.reduced column.end) }
    ensures free { IfOk result (λ column. (p : ℕ) → column.end ≡ p + 1 → owner_at columns.now.owner.items p ≡ None) }
{
    let Column { kept, reduced, end } = column;
    let mut row = zeros(alloc, cells.dims.len())?;
    reduced.add_to(field, field.one(), &mut row);
    reduced_row(alloc, field, cells, columns, i, &mut row, kept, end)
}
