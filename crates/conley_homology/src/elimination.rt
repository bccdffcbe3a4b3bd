//! The columns of all cells of a set reduced, those of the highest dimension first.

ghost use Rattle.std.specs.Prelude.{◌≡◌, ◌<◌, ◌≤◌, ◌+◌, ◌^◌, [], All, IfOk, OnOk, ℕ, Some, None, length, slice_set};
ghost use Rattle.conley_chains.specs.Chain.{};
ghost use Rattle.conley_homology.specs.Own.{place_in, IsOwnComplex, IsDone, IsReducedSoFar};
ghost use Rattle.conley_lefschetz.specs.Listing.{dim_in};

use crate::NoMemory;
use crate::column::{CellSet, Column, Columns, reduced_column};
use conley_chains::Chain;
use conley_field::Field;
use std::alloc::Global;

impl Columns {
    /// No column is reduced.
    fn start(alloc: Global, count: usize) -> Result<Columns, NoMemory>
        ensures kept { IfOk result (λ columns. (length columns.kept.items ≡ count) × All (λ es. es ≡ []) columns.kept.items) }
        ensures reduced { IfOk result (λ columns. (length columns.reduced.items ≡ count) × All (λ es. es ≡ []) columns.reduced.items) }
        ensures owner { IfOk result (λ columns. (length columns.owner.items ≡ count) × All (λ o. o ≡ None) columns.owner.items) }
    {
        let mut kept = Vec::new(alloc);
        let mut reduced = Vec::new(alloc);
        let mut owner = Vec::new(alloc);
        for _i in 0..count {
            kept.push(Chain::new(alloc))?;
            reduced.push(Chain::new(alloc))?;
            owner.push(None)?;
        }
        Ok(Columns {
            kept,
            reduced,
            owner,
        })
    }

    /// The column of cell i is reduced.
    fn put(&mut self, i: usize, column: Column)
        requires kept { i < length self.old.kept.items }
        requires reduced { i < length self.old.reduced.items }
        requires few { i < 2 ^ 32 }
        requires end { column.end ≤ length self.old.owner.items }
        ensures kept { self.new.kept.items ≡ slice_set self.old.kept.items i column.kept }
        ensures reduced { self.new.reduced.items ≡ slice_set self.old.reduced.items i column.reduced }
        ensures nowhere { column.end ≡ 0 → self.new.owner.items ≡ self.old.owner.items }
        ensures owner { (p : ℕ) → column.end ≡ p + 1 → self.new.owner.items ≡ slice_set self.old.owner.items p (Some i) }
    {
        if column.end > 0 {
            self.owner[column.end - 1] = Some(i as u32);
        }
        self.kept[i] = column.kept;
        self.reduced[i] = column.reduced;
    }

    /// Reduces the column of cell i, where it is of the dimension and has no owner.
    fn reduce_cell<F: Field>(
        &mut self,
        alloc: Global,
        field: &F,
        cells: &CellSet,
        level: usize,
        i: usize,
    ) -> Result<(), NoMemory>
        requires complex { IsOwnComplex (F.arithmetic field.now) cells.now.boundary.now cells.now.dims.now cells.now.set.now }
        requires cell { i < length cells.now.set.now }
        requires so_far { IsReducedSoFar (F.arithmetic field.now) cells.now.boundary.now cells.now.dims.now cells.now.set.now cells.now.keeps
            (IsDone cells.now.dims.now cells.now.set.now level i)
            self.old.kept.items self.old.reduced.items self.old.owner.items }
        ensures so_far { OnOk result (IsReducedSoFar (F.arithmetic field.now) cells.now.boundary.now cells.now.dims.now cells.now.set.now cells.now.keeps
            (IsDone cells.now.dims.now cells.now.set.now level (i + 1))
            self.new.kept.items self.new.reduced.items self.new.owner.items) }
    {
        if cells.dims[cells.set[i] as usize] as usize != level {
            return Ok(());
        }
        if self.owner[i].is_some() {
            return Ok(());
        }
        let column = reduced_column(alloc, field, cells, self, i)?;
        self.put(i, column);
        Ok(())
    }

    /// Reduces the columns of the cells of a dimension that have no owner.
    fn reduce_level<F: Field>(
        &mut self,
        alloc: Global,
        field: &F,
        cells: &CellSet,
        level: usize,
    ) -> Result<(), NoMemory>
        requires complex { IsOwnComplex (F.arithmetic field.now) cells.now.boundary.now cells.now.dims.now cells.now.set.now }
        requires so_far { IsReducedSoFar (F.arithmetic field.now) cells.now.boundary.now cells.now.dims.now cells.now.set.now cells.now.keeps
            (λ j. level + 1 ≤ dim_in cells.now.dims.now (place_in cells.now.set.now j))
            self.old.kept.items self.old.reduced.items self.old.owner.items }
        ensures so_far { OnOk result (IsReducedSoFar (F.arithmetic field.now) cells.now.boundary.now cells.now.dims.now cells.now.set.now cells.now.keeps
            (λ j. level ≤ dim_in cells.now.dims.now (place_in cells.now.set.now j))
            self.new.kept.items self.new.reduced.items self.new.owner.items) }
    {
        for i in 0..cells.set.len() {
            self.reduce_cell(alloc, field, cells, level, i)?;
        }
        Ok(())
    }
}

/// The columns of all cells of a set are reduced, highest dimensions first.
pub(crate) fn eliminated<F: Field>(
    alloc: Global,
    field: &F,
    cells: &CellSet,
    levels: usize,
) -> Result<Columns, NoMemory>
    requires complex { IsOwnComplex (F.arithmetic field.now) cells.now.boundary.now cells.now.dims.now cells.now.set.now }
    requires levels { All (λ dim. dim < levels) cells.now.dims.now }
    ensures { IfOk result (λ columns. IsReducedSoFar (F.arithmetic field.now) cells.now.boundary.now cells.now.dims.now cells.now.set.now cells.now.keeps
        (λ j. 0 ≤ dim_in cells.now.dims.now (place_in cells.now.set.now j))
        columns.kept.items columns.reduced.items columns.owner.items) }
{
    let mut columns = Columns::start(alloc, cells.set.len())?;
    let mut level = levels;
    while level > 0 {
        level -= 1;
        columns.reduce_level(alloc, field, cells, level)?;
    }
    Ok(columns)
}
