//! Cycles counted and collected by their dimension.

ghost use Rattle.std.specs.Prelude.{◌≡◌, ◌<◌, ◌+◌, ◌^◌, IfOk, ℕ, length, true, false};
ghost use Rattle.conley_homology.specs.Reduced.{IsFree};
ghost use Rattle.conley_homology.specs.Own.{place_in, owner_at, vector_at};
ghost use Rattle.conley_lefschetz.specs.Listing.{dim_in};
ghost use Rattle.conley_homology.specs.Homology.{IsCounted, IsCollected};

use crate::NoMemory;
use crate::column::{CellSet, Columns};
use conley_chains::Chain;
use std::alloc::Global;

impl Columns {
    /// Whether cell i has the dimension, and no boundary ends there, and its chain is a cycle.
    fn is_free(&self, cells: &CellSet, level: usize, i: usize) -> bool
        requires cell { i < length cells.now.set.now }
        requires dims { (k : ℕ) → k < length cells.now.set.now → place_in cells.now.set.now k < length cells.now.dims.now }
        requires reduced { length self.now.reduced.items ≡ length cells.now.set.now }
        requires owner { length self.now.owner.items ≡ length cells.now.set.now }
        ensures yes { result ≡ true →
            IsFree (dim_in cells.now.dims.now) (place_in cells.now.set.now) (vector_at self.now.reduced.items) (owner_at self.now.owner.items) level i }
        ensures no { result ≡ false →
            ¬ IsFree (dim_in cells.now.dims.now) (place_in cells.now.set.now) (vector_at self.now.reduced.items) (owner_at self.now.owner.items) level i }
    {
        if cells.dims[cells.set[i] as usize] as usize != level {
            return false;
        }
        if self.owner[i].is_some() {
            return false;
        }
        self.reduced[i].entries().is_empty()
    }

    /// How many cycles of the dimension there are.
    pub(crate) fn count(&self, cells: &CellSet, level: usize) -> u32
        requires few { length cells.now.set.now < 2 ^ 32 }
        requires dims { (k : ℕ) → k < length cells.now.set.now → place_in cells.now.set.now k < length cells.now.dims.now }
        requires reduced { length self.now.reduced.items ≡ length cells.now.set.now }
        requires owner { length self.now.owner.items ≡ length cells.now.set.now }
        ensures { IsCounted
            (IsFree (dim_in cells.now.dims.now) (place_in cells.now.set.now) (vector_at self.now.reduced.items) (owner_at self.now.owner.items) level)
            (length cells.now.set.now) result }
    {
        let mut count = 0;
        for place in 0..cells.set.len() {
            if self.is_free(cells, level, place) {
                count += 1;
            }
        }
        count
    }

    /// The cycles of a dimension go to the end of `cycles`; how many there are.
    pub(crate) fn collect(
        &self,
        alloc: Global,
        cells: &CellSet,
        level: usize,
        cycles: &mut Vec<Chain>,
    ) -> Result<u32, NoMemory>
        requires few { length cells.now.set.now < 2 ^ 32 }
        requires dims { (k : ℕ) → k < length cells.now.set.now → place_in cells.now.set.now k < length cells.now.dims.now }
        requires kept { length self.now.kept.items ≡ length cells.now.set.now }
        requires reduced { length self.now.reduced.items ≡ length cells.now.set.now }
        requires owner { length self.now.owner.items ≡ length cells.now.set.now }
        ensures { IfOk result (λ count. IsCollected self.now.kept.items
            (IsFree (dim_in cells.now.dims.now) (place_in cells.now.set.now) (vector_at self.now.reduced.items) (owner_at self.now.owner.items) level)
            (length cells.now.set.now) count cycles.old.items cycles.new.items) }
    {
        let mut count = 0;
        for i in 0..cells.set.len() {
            if self.is_free(cells, level, i) {
                cycles.push(Chain::from_pairs(alloc, self.kept[i].entries())?)?;
                count += 1;
            }
        }
        Ok(count)
    }
}
