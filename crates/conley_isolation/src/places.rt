//! The cells of a set by their places in it.

ghost use Rattle.std.specs.Prelude.{◌≡◌, ◌↔◌, ◌<◌, ◌^◌, ℕ, All, Contains, IfOk, length, slice_index};
ghost use Rattle.std.specs.List.Sorted.{IsStrictlyIncreasing};
ghost use Rattle.conley_isolation.specs.Making.{HaveFirsts};

use crate::NoMemory;
use conley_lists::place_of;
use conley_mvf::Partition;
use std::alloc::Global;

/// The places in the set of those cells that are in it.
pub(crate) fn places_in(alloc: Global, cells: &[u32], set: &[u32]) -> Result<Vec<u32>, NoMemory>
    requires set { IsStrictlyIncreasing set.now }
    requires few { length set.now < 2 ^ 32 }
    ensures { IfOk result (λ places. (i : ℕ) → Contains places.items i ↔ ((i < length set.now) × Contains cells.now (slice_index set.now i))) }
{
    let mut places = Vec::new(alloc);
    for x in cells {
        if let Some(place) = place_of(set, *x) {
            places.push(place as u32)?;
        }
    }
    Ok(places)
}

/// The part of each cell of the set.
pub(crate) fn parts_of(
    alloc: Global,
    partition: &Partition,
    set: &[u32],
) -> Result<Vec<u32>, NoMemory>
    requires { All (λ x. x < length partition.now) set.now }
    ensures count { IfOk result (λ parts. length parts.items ≡ length set.now) }
    ensures parts { IfOk result (λ parts. (i : ℕ) → i < length set.now → slice_index parts.items i ≡ slice_index partition.now (slice_index set.now i)) }
{
    let mut parts = Vec::new(alloc);
    for x in set {
        parts.push(partition.part_of(*x))?;
    }
    Ok(parts)
}

/// For each place the first place of its part. The parts have numbers below the count.
pub(crate) fn firsts_of(alloc: Global, parts: &[u32], count: usize) -> Result<Vec<u32>, NoMemory>
    requires few { length parts.now < 2 ^ 32 }
    requires parts { All (λ p. p < count) parts.now }
    ensures { IfOk result (λ firsts. HaveFirsts parts.now firsts.items) }
{
    let none = parts.len() as u32;
    let mut first = vec![in alloc; none; count]?;
    let mut firsts = Vec::new(alloc);
    for i in 0..none {
        let p = parts[i as usize] as usize;
        if first[p] == none {
            first[p] = i;
        }
        firsts.push(first[p])?;
    }
    Ok(firsts)
}
