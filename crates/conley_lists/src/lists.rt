//! Lists of lists of numbers: their entries, and lists put in order.

ghost use Rattle.std.specs.Prelude.{◌≡◌, ◌<◌, ◌≤◌, ◌^◌, ◌↔◌, All, take, slice_index, ℕ, OnOk, OnErr, IfOk, IfSome, IfNone, IsTrue, Contains, false, length};
ghost use Rattle.std.specs.List.Sorted.{IsStrictlyIncreasing};
ghost use Rattle.conley_lists.specs.Lists.{items_of, IsDigraph, entries_of, IsFirstOutOfRange, IsOrderedCopy, PutsUnder, is_listed};
ghost use Rattle.conley_lists.specs.Gathered.{IsNumbering, AreGathered};

use std::alloc::{AllocError, Global};

/// The first place in the list with a number that isn't below n.
fn place_out_of_range(list: &[u32], n: usize) -> Option<usize>
    ensures found { IfSome result (λ k. (k < length list.now) × (n ≤ slice_index list.now k) × All (λ y. y < n) (take k list.now)) }
    ensures none { IfNone result (All (λ y. y < n) list.now) }
{
    for (k, entry) in list.iter().enumerate() {
        if *entry as usize >= n {
            return Some(k);
        }
    }
    None
}

/// The first entry, counted over all lists, that isn't below the number of lists. No memory.
pub fn first_out_of_range(lists: &[Vec<u32>]) -> Option<u32>
    requires { length (entries_of (items_of lists.now)) < 2 ^ 32 }
    ensures found { IfSome result (IsFirstOutOfRange (items_of lists.now)) }
    ensures none { IfNone result (IsDigraph (items_of lists.now)) }
{
    let mut before = 0;
    for list in lists {
        if let Some(place) = place_out_of_range(list, lists.len()) {
            return Some((before + place) as u32);
        }
        before += list.len();
    }
    None
}

/// The same numbers in ascending order, each once.
pub fn ordered(alloc: Global, list: &[u32]) -> Result<Vec<u32>, AllocError>
    ensures ascending { IfOk result (λ copy. IsStrictlyIncreasing copy.items) }
    ensures same { IfOk result (λ copy. (y : ℕ) → Contains copy.items y ↔ Contains list.now y) }
    ensures no_longer { IfOk result (λ copy. length copy.items ≤ length list.now) }
{
    let mut copy = Vec::from_slice(alloc, list)?;
    copy.sort_unstable();
    copy.dedup();
    Ok(copy)
}

/// Each list in ascending order, each number once.
pub fn all_ordered(alloc: Global, lists: &[Vec<u32>]) -> Result<Vec<Vec<u32>>, AllocError>
    ensures { IfOk result (λ copy. IsOrderedCopy (items_of copy.items) (items_of lists.now)) }
{
    let mut copies = Vec::new(alloc);
    for list in lists {
        copies.push(ordered(alloc, list)?)?;
    }
    Ok(copies)
}

/// Whether the ascending list contains the number, by binary search. No memory.
pub fn stands_in(list: &[u32], x: u32) -> bool
    requires { IsStrictlyIncreasing list.now }
    ensures { IsTrue result ↔ Contains list.now x }
{
    match list.binary_search(&x) {
        Ok(_) => true,
        Err(_) => false,
    }
}

/// Where a number stands in the ascending list, by binary search. No memory.
pub fn place_of(list: &[u32], x: u32) -> Option<usize>
    requires { IsStrictlyIncreasing list.now }
    ensures some { IfSome result (λ k. (k < length list.now) × (slice_index list.now k ≡ x)) }
    ensures none { IfNone result (is_listed list.now x ≡ false) }
{
    match list.binary_search(&x) {
        Ok(place) => Some(place),
        Err(_) => None,
    }
}

/// Puts y at the end of list x. Where there is no memory the lists stay as they are.
pub fn put_under(lists: &mut Vec<Vec<u32>>, x: u32, y: u32) -> Result<(), AllocError>
    requires { x < length lists.old.items }
    ensures puts { OnOk result (PutsUnder (items_of lists.old.items) (items_of lists.new.items) x y) }
    ensures unchanged { OnErr result (items_of lists.new.items ≡ items_of lists.old.items) }
{
    lists[x as usize].push(y)?;
    Ok(())
}

/// The places of each number, ascending, where each smaller number stands at an earlier place.
pub fn gathered(alloc: Global, numbers: &[u32]) -> Result<Vec<Vec<u32>>, AllocError>
    requires few { length numbers.now < 2 ^ 32 }
    requires in_order { IsNumbering numbers.now }
    ensures { IfOk result (λ lists. AreGathered numbers.now (length numbers.now) (items_of lists.items)) }
{
    let mut lists = Vec::new(alloc);
    for x in 0..numbers.len() as u32 {
        let number = numbers[x as usize];
        if number as usize == lists.len() {
            lists.push(vec![in alloc; x]?)?;
        } else {
            put_under(&mut lists, number, x)?;
        }
    }
    Ok(lists)
}
