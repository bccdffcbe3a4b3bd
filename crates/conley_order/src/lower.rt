//! For each of several cells a row of bits of those that are lower by a preorder, and unions of such rows.

ghost use Rattle.std.specs.Prelude.{◌≡◌, ◌≢◌, ◌*◌, ◌<◌, ◌≤◌, ◌^◌, ◌↔◌, ℕ, false, All, IfOk, IsTrue, length, slice_index_or};
ghost use Rattle.conley_lists.specs.Lists.{items_of};
ghost use Rattle.conley_order.specs.ClassRows.{word_bit};
ghost use Rattle.conley_order.specs.LowerRows.{lower_by, AreLowerRows, AreWide, IsLowerStill};

use crate::bits::{has_bit, join_row};
use crate::{Grading, words_of};
use std::alloc::{AllocError, Global};

/// Whether the q-th cell is lower than the p-th.
fn is_lower<G: Grading>(grading: &G, cells: &[u32], q: usize, p: usize) -> bool
    requires cells { All (λ x. x < G.cell_count grading.now) cells.now }
    requires lower { q < length cells.now }
    requires upper { p < length cells.now }
    ensures { result ≡ lower_by (G.is_below grading.now) cells.now q p }
{
    if p == q {
        return false;
    }
    grading.below(cells[q], cells[p])
}

/// A mark for each cell that is lower than the p-th.
fn lower_marks<G: Grading>(
    alloc: Global,
    grading: &G,
    cells: &[u32],
    p: usize,
) -> Result<Vec<bool>, AllocError>
    requires cells { All (λ x. x < G.cell_count grading.now) cells.now }
    requires place { p < length cells.now }
    ensures width { IfOk result (λ row. length row.items ≡ length cells.now) }
    ensures marks { IfOk result (λ row. (q : ℕ) → q < length cells.now → slice_index_or row.items q false ≡ lower_by (G.is_below grading.now) cells.now q p) }
{
    let mut row = Vec::new(alloc);
    for q in 0..cells.len() {
        row.push(is_lower(grading, cells, q, p))?;
    }
    Ok(row)
}

/// For each of the cells a row of bits of those that are lower: they stand at other places and are at or below it.
pub fn lower_rows<G: Grading>(
    alloc: Global,
    grading: &G,
    cells: &[u32],
) -> Result<Vec<Vec<u64>>, AllocError>
    requires cells { All (λ x. x < G.cell_count grading.now) cells.now }
    requires few { length cells.now < 2 ^ 32 }
    ensures { IfOk result (λ lower. AreLowerRows (lower_by (G.is_below grading.now) cells.now) (length cells.now) (length cells.now) (items_of lower.items)) }
{
    let mut lower = Vec::new(alloc);
    for p in 0..cells.len() {
        let marks = lower_marks(alloc, grading, cells, p)?;
        lower.push(words_of(alloc, &marks)?)?;
    }
    Ok(lower)
}

/// The bits of what is lower than something that is lower than p: the union of as many rows.
pub fn lower_still(alloc: Global, lower: &[Vec<u64>], p: usize) -> Result<Vec<u64>, AllocError>
    requires few { length lower.now < 2 ^ 32 }
    requires place { p < length lower.now }
    requires wide { AreWide (items_of lower.now) }
    ensures width { IfOk result (λ words. length lower.now ≤ 64 * length words.items) }
    ensures bits { IfOk result (λ words. IsLowerStill (items_of lower.now) p words.items) }
{
    let mut words = vec![in alloc; 0u64; (lower.len() + 63) / 64]?;
    for r in 0..lower.len() {
        if has_bit(&lower[p], r) {
            join_row(&mut words, &lower[r]);
        }
    }
    Ok(words)
}

/// Whether a bit stands in the row of what is lower and not in that of what is lower still: nothing is between. It takes no memory.
pub fn is_next(lower: &[u64], still: &[u64], q: usize) -> bool
    requires lower { q < 64 * length lower.now }
    requires still { q < 64 * length still.now }
    ensures { IsTrue result ↔ ((word_bit lower.now q ≡ 1) × (word_bit still.now q ≢ 1)) }
{
    has_bit(lower, q) && !has_bit(still, q)
}
