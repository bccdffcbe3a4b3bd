//! Columns put into rows.

ghost use Rattle.std.specs.Prelude.{◌≡◌, ◌<◌, ◌≤◌, ◌==◌, if◌then◌else◌, [], All, IfOk, OnOk, ℕ, length, slice_index_or};
ghost use Rattle.conley_chains.specs.Chain.{coefficient};

use crate::{Chain, NoMemory};
use std::alloc::Global;

/// How many entries stand in each of the first rows.
pub(crate) fn row_lengths(
    alloc: Global,
    count: usize,
    columns: &[Chain],
) -> Result<Vec<usize>, NoMemory>
    ensures { IfOk result (λ lengths. length lengths.items ≡ count) }
{
    let mut lengths = vec![in alloc; 0; count]?;
    for column in columns {
        count_rows(&mut lengths, column);
    }
    Ok(lengths)
}

/// One more for each row that the column has an entry in.
fn count_rows(lengths: &mut [usize], column: &Chain)
    ensures { length lengths.new ≡ length lengths.old }
{
    for e in column.entries() {
        let row = e.0 as usize;
        if row < lengths.len() {
            lengths[row] = lengths[row].wrapping_add(1);
        }
    }
}

/// Chains that keep nothing, with room for as many entries as are listed.
pub(crate) fn empty_chains(alloc: Global, room: &[usize]) -> Result<Vec<Chain>, NoMemory>
    ensures count { IfOk result (λ chains. length chains.items ≡ length room.now) }
    ensures empty { IfOk result (λ chains. (k : ℕ) → slice_index_or chains.items k [] ≡ []) }
{
    let mut chains = Vec::with_capacity(alloc, room.len())?;
    for count in room {
        chains.push(Chain::with_room(alloc, *count)?)?;
    }
    Ok(chains)
}

/// Each row keeps at `place`, which lies beyond all its others, what the column keeps in that row.
pub(crate) fn spread(rows: &mut Vec<Chain>, place: u32, column: &Chain) -> Result<(), NoMemory>
    requires before { All (λ es. All (λ e. e.0 < place) es) rows.old.items }
    requires within { All (λ e. e.0 < length rows.old.items) column.now }
    ensures count { OnOk result (length rows.new.items ≡ length rows.old.items) }
    ensures entries { OnOk result ((row k : ℕ) → coefficient (slice_index_or rows.new.items row []) k ≡
        (if k == place then coefficient column.now row else coefficient (slice_index_or rows.old.items row []) k)) }
    ensures places { OnOk result (All (λ es. All (λ e. e.0 ≤ place) es) rows.new.items) }
    ensures codes { OnOk result ((n : ℕ) → All (λ e. e.1 < n) column.now → All (λ es. All (λ e. e.1 < n) es) rows.old.items
        → All (λ es. All (λ e. e.1 < n) es) rows.new.items) }
{
    for e in column.entries() {
        rows[e.0 as usize].put(place, e.1)?;
    }
    Ok(())
}
