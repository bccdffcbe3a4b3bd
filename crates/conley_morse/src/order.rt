//! The covers of reach between sets.

ghost use Rattle.std.specs.Prelude.{◌*◌, ◌<◌, ◌≤◌, ◌^◌, IfOk, OnOk, length};
ghost use Rattle.conley_lists.specs.Lists.{items_of};
ghost use Rattle.conley_lists.specs.Pairs.{AreAscending};
ghost use Rattle.conley_morse.specs.Covers.{AreCoversSoFar, lower_test, HaveFirstCells, AreFirstCells, IsBeforeRow, AddsCovers};

use crate::NoMemory;
use conley_order::{ReachRows, is_next, lower_rows, lower_still};
use std::alloc::Global;

/// The first cell of each set.
fn firsts_of(alloc: Global, rows: &ReachRows, sets: &[Vec<u32>]) -> Result<Vec<u32>, NoMemory>
    requires { HaveFirstCells rows.now (items_of sets.now) }
    ensures { IfOk result (λ firsts. AreFirstCells rows.now (items_of sets.now) (length sets.now) firsts.items) }
{
    let _rows = rows;
    let mut firsts = Vec::new(alloc);
    for i in 0..sets.len() {
        firsts.push(sets[i][0])?;
    }
    Ok(firsts)
}

/// Adds the pairs of p and each set that is lower and not between.
fn push_covers(
    order: &mut Vec<(u32, u32)>,
    lower: &[u64],
    between: &[u64],
    p: u32,
    count: usize,
) -> Result<(), NoMemory>
    requires few { count < 2 ^ 32 }
    requires lower { count ≤ 64 * length lower.now }
    requires between { count ≤ 64 * length between.now }
    requires ascending { AreAscending order.old.items }
    requires before { IsBeforeRow order.old.items p }
    ensures { OnOk result (AddsCovers order.old.items order.new.items lower.now between.now p count) }
{
    for q in 0..count {
        if is_next(lower, between, q) {
            order.push((p, q as u32))?;
        }
    }
    Ok(())
}

/// The pairs (p, q) of different sets where p reaches q and no third set lies between, ascending.
pub(crate) fn covers(
    alloc: Global,
    rows: &ReachRows,
    sets: &[Vec<u32>],
) -> Result<Vec<(u32, u32)>, NoMemory>
    requires firsts { HaveFirstCells rows.now (items_of sets.now) }
    requires few { length sets.now < 2 ^ 32 }
    ensures { IfOk result (λ order. AreCoversSoFar (lower_test rows.now (items_of sets.now)) (length sets.now) (length sets.now) order.items) }
{
    let firsts = firsts_of(alloc, rows, sets)?;
    let cells = firsts.as_slice();
    let lower = lower_rows(alloc, rows, cells)?;
    let mut order = Vec::new(alloc);
    for p in 0..sets.len() {
        let between = lower_still(alloc, &lower, p)?;
        push_covers(&mut order, &lower[p], &between, p as u32, sets.len())?;
    }
    Ok(order)
}
