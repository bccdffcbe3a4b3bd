//! Lists to begin with, and numbers written at listed places.

ghost use Rattle.std.specs.Prelude.{◌≡◌, ◌<◌, ◌^◌, ℕ, [], All, Contains, IfOk, length, slice_index, slice_index_or};
ghost use Rattle.std.specs.List.Sorted.{IsStrictlyIncreasing};
ghost use Rattle.conley_lists.specs.Lists.{items_of};

use std::alloc::{AllocError, Global};

/// The numbers below n, ascending.
pub fn all_numbers(alloc: Global, n: usize) -> Result<Vec<u32>, AllocError>
    requires few { n < 2 ^ 32 }
    ensures count { IfOk result (λ all. length all.items ≡ n) }
    ensures items { IfOk result (λ all. (x : ℕ) → x < n → slice_index all.items x ≡ x) }
    ensures below { IfOk result (λ all. All (λ x. x < n) all.items) }
    ensures ascending { IfOk result (λ all. IsStrictlyIncreasing all.items) }
{
    let mut all = Vec::new(alloc);
    for x in 0..n {
        all.push(x as u32)?;
    }
    Ok(all)
}

/// This many empty lists.
pub fn empty_lists(alloc: Global, count: usize) -> Result<Vec<Vec<u32>>, AllocError>
    ensures count { IfOk result (λ lists. length lists.items ≡ count) }
    ensures empty { IfOk result (λ lists. (x : ℕ) → slice_index_or (items_of lists.items) x [] ≡ []) }
{
    let mut lists = Vec::new(alloc);
    for turn in 0..count {
        lists.push(Vec::new(alloc))?;
    }
    Ok(lists)
}

/// Writes a number at each listed place. It takes no memory.
pub fn put_at(numbers: &mut Vec<u32>, places: &[u32], number: u32)
    requires { All (λ x. x < length numbers.old.items) places.now }
    ensures width { length numbers.new.items ≡ length numbers.old.items }
    ensures inside { (x : ℕ) → Contains places.now x → slice_index numbers.new.items x ≡ number }
    ensures outside { (x : ℕ) → ¬ Contains places.now x → slice_index numbers.new.items x ≡ slice_index numbers.old.items x }
{
    for i in 0..places.len() {
        let x = places[i];
        numbers[x as usize] = number;
    }
}
