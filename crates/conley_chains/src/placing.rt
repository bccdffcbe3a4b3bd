ghost use Rattle.std.specs.Prelude.{◌≡◌, ◌==◌, ◌<◌, ◌≤◌, ◌+◌, ◌-◌, ◌^◌, ℕ, false, length, AllPairs, IfNone, IfSome, IfOk};
ghost use Rattle.std.specs.List.Sorted.{IsPermutation};
ghost use Rattle.conley_chains.specs.Faults.{first_of_three, pair_at, triple_at, own_fault_at, own_fault_within, is_outside, IsFaultless};
ghost use Rattle.conley_chains.specs.Placing.{placed_at, IsOnePlace, IsInOrder, AreApart, IsFirstRepeat, least_of, ArePlaced, StopsAt};

use crate::{MatrixError, NoMemory};
use std::alloc::Global;

/// An entry of a list, with its place and its number in the list. The order is by place, and by number at one place.
#[derive(Clone, Copy, PartialEq, Eq, PartialOrd, Ord)]
pub struct Placed {
    pub column: u32,
    pub row: u32,
    pub number: u32,
    pub code: u8,
}

/// Sorts entries by their places. The answer is the number of the first that stands where an earlier one does.
pub fn sort_by_place(placed: &mut Vec<Placed>) -> Option<u32>
    requires numbered { (k : ℕ) → k < length placed.old.items → (placed_at placed.old.items k).number ≡ k }
    ensures permutation { IsPermutation placed.old.items placed.new.items }
    ensures in_order { AllPairs IsInOrder placed.new.items }
    ensures none { IfNone result (AreApart placed.old.items (length placed.old.items)) }
    ensures first { IfSome result (IsFirstRepeat placed.old.items) }
{
    placed.sort_unstable();
    least_repeat(placed)
}

/// Of entries in order, the least number of one that stands where the one before it does.
fn least_repeat(placed: &[Placed]) -> Option<u32>
    ensures none { IfNone result ((j : ℕ) → j + 1 < length placed.now → ¬ IsOnePlace (placed_at placed.now j) (placed_at placed.now (j + 1))) }
    ensures found { IfSome result (λ n. (j : ℕ) × ((j + 1 < length placed.now) × IsOnePlace (placed_at placed.now j) (placed_at placed.now (j + 1))
        × ((placed_at placed.now (j + 1)).number ≡ n))) }
    ensures least { IfSome result (λ n. (j : ℕ) → j + 1 < length placed.now → IsOnePlace (placed_at placed.now j) (placed_at placed.now (j + 1))
        → n ≤ (placed_at placed.now (j + 1)).number) }
{
    let mut least = None;
    for k in 1..placed.len() {
        let before = placed[k - 1];
        let here = placed[k];
        if before.column == here.column && before.row == here.row {
            least = Some(lesser(least, here.number));
        }
    }
    least
}

/// The lesser of a number that was found, if any, and another.
fn lesser(found: Option<u32>, number: u32) -> u32
    ensures { result ≡ least_of found number }
{
    match found {
        Some(least) => least.min(number),
        None => number,
    }
}

/// The first entries of a chain's list, up to one that is out of range or zero, with that fault.
pub fn place_pairs(
    alloc: Global,
    order: u8,
    entries: &[(u32, u8)],
) -> Result<(Vec<Placed>, Option<MatrixError>), NoMemory>
    requires few { length entries.now < 2 ^ 32 - 1 }
    ensures placed { IfOk result (λ r. ArePlaced (length entries.now) (λ k. ((pair_at entries.now k).0, 0, (pair_at entries.now k).1)) r.0.items) }
    ensures fine { IfOk result (λ r. IsFaultless (own_fault_at order entries.now) (length r.0.items)) }
    ensures fault { IfOk result (λ r. StopsAt (own_fault_at order entries.now) (length entries.now) (length r.0.items) r.1) }
{
    let mut placed = Vec::with_capacity(alloc, entries.len())?;
    for k in 0..entries.len() {
        let e = entries[k];
        let fault = own_fault(order <= e.1, k as u32, e.1);
        if fault.is_some() {
            return Ok((placed, fault));
        }
        placed.push(Placed {
            column: 0,
            row: e.0,
            number: k as u32,
            code: e.1,
        })?;
    }
    Ok((placed, None))
}

/// The first entries of a matrix's list, up to one that is out of range or zero, with that fault.
pub fn place_triples(
    alloc: Global,
    rows: usize,
    columns: usize,
    order: u8,
    entries: &[(u32, u32, u8)],
) -> Result<(Vec<Placed>, Option<MatrixError>), NoMemory>
    requires few { length entries.now < 2 ^ 32 - 1 }
    ensures placed { IfOk result (λ r. ArePlaced (length entries.now) (triple_at entries.now) r.0.items) }
    ensures fine { IfOk result (λ r. IsFaultless (own_fault_within rows columns order entries.now) (length r.0.items)) }
    ensures fault { IfOk result (λ r. StopsAt (own_fault_within rows columns order entries.now) (length entries.now) (length r.0.items) r.1) }
{
    let mut placed = Vec::with_capacity(alloc, entries.len())?;
    for k in 0..entries.len() {
        let e = entries[k];
        let fault = own_fault(lies_outside(rows, columns, order, e), k as u32, e.2);
        if fault.is_some() {
            return Ok((placed, fault));
        }
        placed.push(Placed {
            column: e.1,
            row: e.0,
            number: k as u32,
            code: e.2,
        })?;
    }
    Ok((placed, None))
}

/// Whether an entry is beyond the rows, the columns or the codes.
fn lies_outside(rows: usize, columns: usize, order: u8, entry: (u32, u32, u8)) -> bool
    ensures { result ≡ is_outside rows columns order entry }
{
    rows <= entry.0 as usize || columns <= entry.1 as usize || order <= entry.2
}

/// The fault of entry `k` by itself.
fn own_fault(outside: bool, k: u32, code: u8) -> Option<MatrixError>
    ensures { result ≡ first_of_three k outside (code == 0) false }
{
    if outside {
        Some(MatrixError::Range(k))
    } else if code == 0 {
        Some(MatrixError::Zero(k))
    } else {
        None
    }
}
