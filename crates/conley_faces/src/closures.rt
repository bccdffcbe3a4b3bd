//! Closures of cells, made in an order in which faces come before cells.

ghost use Rattle.std.specs.Prelude.{◌≡◌, ◌<◌, ◌^◌, ◌↔◌, ◌⊎◌, All, ℕ, [], OnOk, IfOk, IfSome, IsTrue, true, false, Contains, length, slice_index_or};
ghost use Rattle.std.specs.List.Sorted.{IsStrictlyIncreasing};
ghost use Rattle.conley_lists.specs.Lists.{items_of, ListedStep, IsDigraph};
ghost use Rattle.conley_faces.specs.Face.{IsBelowItself, IsLeastBelowItself};
ghost use Rattle.conley_faces.specs.Closures.{IsMade, IsInListOf, AreClosuresSoFar, IsStuck, IsUnmarked, unmade};

use crate::NoMemory;
use crate::lists::{marked, unmark};
use conley_lists::{empty_lists, ordered};
use conley_walk::reached_from;
use std::alloc::Global;

/// Whether the closures of all these cells are made.
fn are_made(closures: &[Vec<u32>], cells: &[u32]) -> bool
    requires { All (λ y. y < length closures.now) cells.now }
    ensures yes { result ≡ true → (y : ℕ) → Contains cells.now y → IsMade (items_of closures.now) y }
    ensures no { result ≡ false → (y : ℕ) × (Contains cells.now y × ¬ IsMade (items_of closures.now) y) }
{
    for y in cells {
        if closures[*y as usize].is_empty() {
            return false;
        }
    }
    true
}

/// x and what the closures of the cells directly under it have, ascending, by a row without marks.
fn closure_over(
    alloc: Global,
    closures: &[Vec<u32>],
    heads: &[u32],
    x: u32,
    seen: &mut [bool],
) -> Result<Vec<u32>, NoMemory>
    requires heads { All (λ y. y < length closures.now) heads.now }
    requires range { (a y : ℕ) → ListedStep (items_of closures.now) a y → y < length seen.old }
    requires unmarked { IsUnmarked seen.old }
    ensures unmarked { OnOk result (IsUnmarked seen.new) }
    ensures ascending { IfOk result (λ list. IsStrictlyIncreasing list.items) }
    ensures same { IfOk result (λ list. (y : ℕ) → Contains list.items y ↔ (IsInListOf (items_of closures.now) heads.now y ⊎ (y ≡ x))) }
{
    let mut all = marked(alloc, closures, heads, seen)?;
    unmark(&all, seen);
    all.push(x)?;
    let list = ordered(alloc, &all)?;
    Ok(list)
}

/// Makes the closure of x, where it isn't made and those of the cells directly under it are; whether it did.
fn make(
    alloc: Global,
    direct: &[Vec<u32>],
    closures: &mut Vec<Vec<u32>>,
    seen: &mut [bool],
    x: u32,
) -> Result<bool, NoMemory>
    requires digraph { IsDigraph (items_of direct.now) }
    requires cell { x < length direct.now }
    requires state { AreClosuresSoFar (items_of direct.now) (items_of closures.old.items) }
    requires width { length seen.old ≡ length direct.now }
    requires unmarked { IsUnmarked seen.old }
    ensures unmarked { OnOk result (IsUnmarked seen.new) }
    ensures state { OnOk result (AreClosuresSoFar (items_of direct.now) (items_of closures.new.items)) }
    ensures more { result ≡ Ok true → unmade (items_of closures.new.items) < unmade (items_of closures.old.items) }
    ensures same { result ≡ Ok false → closures.new.items ≡ closures.old.items }
    ensures stuck { result ≡ Ok false → IsStuck (items_of direct.now) (items_of closures.old.items) x }
{
    if !closures[x as usize].is_empty() {
        return Ok(false);
    }
    let heads = &direct[x as usize];
    if !are_made(closures, heads) {
        return Ok(false);
    }
    let list = closure_over(alloc, closures, heads, x, seen)?;
    closures[x as usize] = list;
    Ok(true)
}

/// Makes what can be made, cell by cell; whether anything was.
fn make_all(
    alloc: Global,
    direct: &[Vec<u32>],
    closures: &mut Vec<Vec<u32>>,
    seen: &mut [bool],
) -> Result<bool, NoMemory>
    requires digraph { IsDigraph (items_of direct.now) }
    requires count { length direct.now < 2 ^ 32 }
    requires state { AreClosuresSoFar (items_of direct.now) (items_of closures.old.items) }
    requires width { length seen.old ≡ length direct.now }
    requires unmarked { IsUnmarked seen.old }
    ensures unmarked { OnOk result (IsUnmarked seen.new) }
    ensures state { OnOk result (AreClosuresSoFar (items_of direct.now) (items_of closures.new.items)) }
    ensures more { result ≡ Ok true → unmade (items_of closures.new.items) < unmade (items_of closures.old.items) }
    ensures stuck { result ≡ Ok false → (x : ℕ) → x < length direct.now → IsStuck (items_of direct.now) (items_of closures.new.items) x }
{
    let mut going = false;
    for x in 0..direct.len() as u32 {
        if make(alloc, direct, closures, seen, x)? {
            going = true;
        }
    }
    Ok(going)
}

/// The closure of each cell for which it can be made, else an empty list.
pub fn made_closures(alloc: Global, direct: &[Vec<u32>]) -> Result<Vec<Vec<u32>>, NoMemory>
    requires digraph { IsDigraph (items_of direct.now) }
    requires count { length direct.now < 2 ^ 32 }
    ensures state { IfOk result (λ closures. AreClosuresSoFar (items_of direct.now) (items_of closures.items)) }
    ensures stuck { IfOk result (λ closures. (x : ℕ) → x < length direct.now → IsStuck (items_of direct.now) (items_of closures.items) x) }
{
    let mut closures = empty_lists(alloc, direct.len())?;
    let mut seen = vec![in alloc; false; direct.len()]?;
    while make_all(alloc, direct, &mut closures, &mut seen)? {}
    Ok(closures)
}

/// Whether a cell directly under x reaches x. A cell whose closure is made isn't below itself.
fn is_below_itself(
    alloc: Global,
    direct: &[Vec<u32>],
    closures: &[Vec<u32>],
    x: u32,
) -> Result<bool, NoMemory>
    requires digraph { IsDigraph (items_of direct.now) }
    requires cell { x < length direct.now }
    requires state { AreClosuresSoFar (items_of direct.now) (items_of closures.now) }
    ensures { IfOk result (λ answer. IsTrue answer ↔ IsBelowItself (items_of direct.now) x) }
{
    if !closures[x as usize].is_empty() {
        return Ok(false);
    }
    let marks = reached_from(alloc, direct, &direct[x as usize])?;
    Ok(marks[x as usize])
}

/// The least cell below itself, if there is one.
pub fn least_below_itself(
    alloc: Global,
    direct: &[Vec<u32>],
    closures: &[Vec<u32>],
) -> Result<Option<u32>, NoMemory>
    requires digraph { IsDigraph (items_of direct.now) }
    requires count { length direct.now < 2 ^ 32 }
    requires state { AreClosuresSoFar (items_of direct.now) (items_of closures.now) }
    ensures found { IfOk result (λ found. IfSome found (IsLeastBelowItself (items_of direct.now))) }
    ensures none { result ≡ Ok None → (x : ℕ) → ¬ IsBelowItself (items_of direct.now) x }
{
    for x in 0..direct.len() as u32 {
        if is_below_itself(alloc, direct, closures, x)? {
            return Ok(Some(x));
        }
    }
    Ok(None)
}
