//! The first fault of lists, kind by kind.

ghost use Rattle.std.specs.Prelude.{◌≡◌, ◌<◌, ◌≤◌, ℕ, [], All, length, slice_index, slice_index_or, IfOk};
ghost use Rattle.conley_first.specs.Places.{FindsFirst, FindsFirstPlace};
ghost use Rattle.conley_lists.specs.Lists.{items_of, ListedStep};
ghost use Rattle.conley_faces.specs.Face.{IsCellList, IsGap};
ghost use Rattle.conley_mvf.specs.Fault.{IsUnknown, StoodEarlier};
ghost use Rattle.conley_mvf.specs.Making.{FindsFirstGap, MarksPart};

use conley_faces::Faces;
use std::alloc::{AllocError, Global};

/// The first place in a list with a number that isn't below n.
fn unknown_in(list: &[u32], n: usize) -> Option<usize>
    ensures { FindsFirstPlace (length list.now) (λ k. n ≤ slice_index list.now k) result }
{
    for (k, x) in list.iter().enumerate() {
        if *x as usize >= n {
            return Some(k);
        }
    }
    None
}

/// The first list and place with a number that isn't below n.
pub fn first_unknown(lists: &[Vec<u32>], n: usize) -> Option<(usize, usize)>
    ensures { FindsFirst (IsUnknown n (items_of lists.now)) result }
{
    for (k, list) in lists.iter().enumerate() {
        if let Some(place) = unknown_in(list, n) {
            return Some((k, place));
        }
    }
    None
}

/// Marks the numbers of a part. The first that has a mark already ends it.
fn mark_part(seen: &mut Vec<bool>, part: &[u32]) -> Option<usize>
    requires { All (λ x. x < length seen.old.items) part.now }
    ensures width { length seen.new.items ≡ length seen.old.items }
    ensures marks { MarksPart part.now seen.old.items seen.new.items result }
{
    for (k, x) in part.iter().enumerate() {
        let cell = *x as usize;
        if seen[cell] {
            return Some(k);
        }
        seen[cell] = true;
    }
    None
}

/// The first list and place whose number stood earlier.
pub(crate) fn first_repeat(
    alloc: Global,
    lists: &[Vec<u32>],
    cells: usize,
) -> Result<Option<(usize, usize)>, AllocError>
    requires { (k x : ℕ) → ListedStep (items_of lists.now) k x → x < cells }
    ensures { IfOk result (FindsFirst (StoodEarlier (items_of lists.now))) }
{
    let mut seen = vec![in alloc; false; cells]?;
    for (list, part) in lists.iter().enumerate() {
        if let Some(place) = mark_part(&mut seen, part) {
            return Ok(Some((list, place)));
        }
    }
    Ok(None)
}

/// The first list without numbers.
pub fn first_empty(lists: &[Vec<u32>]) -> Option<usize>
    ensures { FindsFirstPlace (length lists.now) (λ k. slice_index_or (items_of lists.now) k [] ≡ []) result }
{
    for (k, list) in lists.iter().enumerate() {
        if list.is_empty() {
            return Some(k);
        }
    }
    None
}

/// The first list with a gap, and its first gap.
pub(crate) fn first_gap(faces: &Faces, lists: &[Vec<u32>]) -> Option<(usize, (u32, u32, u32))>
    requires { (k : ℕ) → IsCellList faces.now (slice_index_or (items_of lists.now) k []) }
    ensures { FindsFirstGap (λ k. IsGap faces.now (slice_index_or (items_of lists.now) k [])) result }
{
    for (k, list) in lists.iter().enumerate() {
        if let Some(gap) = faces.find_gap(list) {
            return Some((k, gap));
        }
    }
    None
}
