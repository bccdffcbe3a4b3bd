//! Numbers gathered from several lists, and what two ascending lists have in common or not.

ghost use Rattle.std.specs.Prelude.{◌≡◌, ◌<◌, ◌≤◌, ◌↔◌, ◌⊎◌, All, ℕ, OnOk, IfOk, IfSome, IfNone, IsTrue, Contains, length};
ghost use Rattle.std.specs.List.Sorted.{IsStrictlyIncreasing};
ghost use Rattle.conley_lists.specs.Lists.{items_of, ListedStep};
ghost use Rattle.conley_faces.specs.Closures.{IsInListOf, IsPart, AreMarked, IsUnmarked};

use crate::NoMemory;
use conley_lists::stands_in;
use std::alloc::Global;

/// Takes the numbers of the list that have no mark, and marks them.
fn take_unmarked(list: &[u32], seen: &mut [bool], taken: &mut Vec<u32>) -> Result<(), NoMemory>
    requires range { All (λ y. y < length seen.old) list.now }
    requires marks { AreMarked seen.old taken.old.items }
    ensures marks { OnOk result (AreMarked seen.new taken.new.items) }
    ensures taken { OnOk result ((y : ℕ) → Contains taken.new.items y ↔ (Contains taken.old.items y ⊎ Contains list.now y)) }
{
    for y in list {
        let place = *y as usize;
        if !seen[place] {
            seen[place] = true;
            taken.push(*y)?;
        }
    }
    Ok(())
}

/// The numbers of the lists of these cells, each once, by a row without marks; then these numbers have marks.
pub fn marked(
    alloc: Global,
    lists: &[Vec<u32>],
    cells: &[u32],
    seen: &mut [bool],
) -> Result<Vec<u32>, NoMemory>
    requires cells { All (λ x. x < length lists.now) cells.now }
    requires range { (x y : ℕ) → ListedStep (items_of lists.now) x y → y < length seen.old }
    requires unmarked { IsUnmarked seen.old }
    ensures marks { IfOk result (λ all. AreMarked seen.new all.items) }
    ensures same { IfOk result (λ all. (y : ℕ) → Contains all.items y ↔ IsInListOf (items_of lists.now) cells.now y) }
{
    let mut all = Vec::new(alloc);
    for x in cells {
        take_unmarked(&lists[*x as usize], seen, &mut all)?;
    }
    Ok(all)
}

/// Takes the marks of these numbers away.
pub fn unmark(list: &[u32], seen: &mut [bool])
    requires { AreMarked seen.old list.now }
    ensures { IsUnmarked seen.new }
{
    for y in list {
        seen[*y as usize] = false;
    }
}

/// The numbers of the lists of these cells, one list after another.
fn joined(alloc: Global, lists: &[Vec<u32>], cells: &[u32]) -> Result<Vec<u32>, NoMemory>
    requires { All (λ x. x < length lists.now) cells.now }
    ensures { IfOk result (λ all. (y : ℕ) → Contains all.items y ↔ IsInListOf (items_of lists.now) cells.now y) }
{
    let mut all = Vec::new(alloc);
    for x in cells {
        all.extend_from_slice(&lists[*x as usize])?;
    }
    Ok(all)
}

/// How many numbers the lists of these cells have.
fn joined_len(lists: &[Vec<u32>], cells: &[u32]) -> usize
    requires { All (λ x. x < length lists.now) cells.now }
{
    let mut len = 0usize;
    for x in cells {
        len = len.saturating_add(lists[*x as usize].len());
    }
    len
}

/// The numbers of the lists of these cells. A row of marks is made only where they are at least as many as the lists.
pub fn gathered(alloc: Global, lists: &[Vec<u32>], cells: &[u32]) -> Result<Vec<u32>, NoMemory>
    requires cells { All (λ x. x < length lists.now) cells.now }
    requires range { (x y : ℕ) → ListedStep (items_of lists.now) x y → y < length lists.now }
    ensures { IfOk result (λ all. (y : ℕ) → Contains all.items y ↔ IsInListOf (items_of lists.now) cells.now y) }
{
    if joined_len(lists, cells) < lists.len() {
        let all = joined(alloc, lists, cells)?;
        return Ok(all);
    }
    let mut seen = vec![in alloc; false; lists.len()]?;
    let all = marked(alloc, lists, cells, &mut seen)?;
    Ok(all)
}

/// The numbers of the ascending list that the other one doesn't have.
pub fn left_out(alloc: Global, list: &[u32], without: &[u32]) -> Result<Vec<u32>, NoMemory>
    requires list { IsStrictlyIncreasing list.now }
    requires without { IsStrictlyIncreasing without.now }
    ensures { IfOk result (λ part. IsPart (λ y. ¬ Contains without.now y) list.now part.items) }
{
    let mut part = Vec::new(alloc);
    for y in list {
        if !stands_in(without, *y) {
            part.push(*y)?;
        }
    }
    Ok(part)
}

/// Whether each number of the one ascending list is less than each of the other one, by their ends.
fn lies_below(list: &[u32], other: &[u32]) -> bool
    requires list { IsStrictlyIncreasing list.now }
    requires other { IsStrictlyIncreasing other.now }
    ensures { IsTrue result ↔ ((y z : ℕ) → Contains list.now y → Contains other.now z → y < z) }
{
    if list.is_empty() {
        return true;
    }
    if other.is_empty() {
        return true;
    }
    list[list.len() - 1] < other[0]
}

/// The first number of the one ascending list that the other one has, by a binary search for each number of the first.
/// Lists of which one lies below the other have none.
pub fn first_common(list: &[u32], other: &[u32]) -> Option<u32>
    requires list { IsStrictlyIncreasing list.now }
    requires other { IsStrictlyIncreasing other.now }
    ensures found { IfSome result (λ z. Contains list.now z × Contains other.now z × ((w : ℕ) → Contains list.now w → Contains other.now w → z ≤ w)) }
    ensures none { IfNone result ((z : ℕ) → Contains list.now z → ¬ Contains other.now z) }
{
    if lies_below(list, other) {
        return None;
    }
    if lies_below(other, list) {
        return None;
    }
    for z in list {
        if stands_in(other, *z) {
            return Some(*z);
        }
    }
    None
}
