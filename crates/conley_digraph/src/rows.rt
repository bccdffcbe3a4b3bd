//! Rows of bits that say which classes reach which, each joined from the rows of the classes that its class steps into.

ghost use Rattle.std.specs.Prelude.{◌≡◌, ◌<◌, ◌^◌, ◌↔◌, ℕ, [], All, Contains, IfOk, length, slice_index, slice_index_or};
ghost use Rattle.conley_lists.specs.Lists.{items_of, IsDigraph};
ghost use Rattle.conley_digraph.specs.Classes.{AreClasses};
ghost use Rattle.conley_digraph.specs.Rows.{IsClosingOrder, IsRowOf, HaveRows, IsRowSoFar, JoinsHeads, AreRowsOf};

use conley_lists::gathered;
use conley_order::{has_bit, join_row, set_bit};
use std::alloc::{AllocError, Global};

/// Joins the rows of the classes of the node's heads that the row doesn't have yet.
fn join_heads(row: &mut [u64], steps: &[Vec<u32>], class_of: &[u32], rows: &[Vec<u64>], x: u32)
    requires digraph { IsDigraph (items_of steps.now) }
    requires classes { AreClasses (items_of steps.now) class_of.now }
    requires below { All (λ c. c < length rows.now) class_of.now }
    requires node { x < length steps.now }
    requires rows { HaveRows (items_of steps.now) class_of.now (items_of rows.now) x }
    requires row { IsRowSoFar (items_of steps.now) class_of.now (length rows.now) (slice_index class_of.now x) row.old }
    ensures row { IsRowSoFar (items_of steps.now) class_of.now (length rows.now) (slice_index class_of.now x) row.new }
    ensures heads { JoinsHeads row.old row.new class_of.now (slice_index_or (items_of steps.now) x []) }
{
    for y in &steps[x as usize] {
        let class = class_of[*y as usize] as usize;
        if !has_bit(row, class) {
            join_row(row, &rows[class]);
        }
    }
}

/// The row of a class with these members.
fn row_of(
    alloc: Global,
    steps: &[Vec<u32>],
    class_of: &[u32],
    rows: &[Vec<u64>],
    class: u32,
    members: &[u32],
) -> Result<Vec<u64>, AllocError>
    requires digraph { IsDigraph (items_of steps.now) }
    requires classes { AreClasses (items_of steps.now) class_of.now }
    requires below { All (λ c. c < length rows.now) class_of.now }
    requires class { class < length rows.now }
    requires members { (x : ℕ) → Contains members.now x ↔ ((x < length steps.now) × (slice_index class_of.now x ≡ class)) }
    requires rows { (x : ℕ) → x < length steps.now → slice_index class_of.now x ≡ class → HaveRows (items_of steps.now) class_of.now (items_of rows.now) x }
    ensures { IfOk result (λ row. (x : ℕ) → x < length steps.now → slice_index class_of.now x ≡ class
        → IsRowOf (items_of steps.now) class_of.now (length rows.now) x row.items) }
{
    let mut row = vec![in alloc; 0u64; rows.len() / 64 + 1]?;
    set_bit(&mut row, class as usize);
    for x in members {
        join_heads(&mut row, steps, class_of, rows, *x);
    }
    Ok(row)
}

/// This many rows without words.
fn empty_rows(alloc: Global, count: usize) -> Result<Vec<Vec<u64>>, AllocError>
    ensures { IfOk result (λ rows. length rows.items ≡ count) }
{
    let mut rows = Vec::new(alloc);
    for turn in 0..count {
        rows.push(Vec::new(alloc))?;
    }
    Ok(rows)
}

/// For each class the row of those that it reaches, made in the order of these nodes. Each step is looked at once.
pub(crate) fn class_rows(
    alloc: Global,
    steps: &[Vec<u32>],
    class_of: &[u32],
    order: &[u32],
) -> Result<Vec<Vec<u64>>, AllocError>
    requires digraph { IsDigraph (items_of steps.now) }
    requires few { length steps.now < 2 ^ 32 }
    requires classes { AreClasses (items_of steps.now) class_of.now }
    requires order { IsClosingOrder (items_of steps.now) class_of.now order.now }
    ensures { IfOk result (λ rows. AreRowsOf (items_of steps.now) class_of.now (items_of rows.items)) }
{
    let members = gathered(alloc, class_of)?;
    let mut rows = empty_rows(alloc, members.len())?;
    for x in order {
        let class = class_of[*x as usize];
        let row = row_of(
            alloc,
            steps,
            class_of,
            &rows,
            class,
            &members[class as usize],
        )?;
        rows[class as usize] = row;
    }
    Ok(rows)
}
