//! The numbers of parts.

ghost use Rattle.std.specs.Prelude.{◌≡◌, ◌<◌, ◌^◌, ℕ, All, IfOk, length, slice_index};
ghost use Rattle.conley_lists.specs.Lists.{items_of, ListedStep};
ghost use Rattle.conley_mvf.specs.Making.{PutsFirst, TellsFirst, AreLeast, TellsFirstByLabel, NumbersSoFar};

use std::alloc::{AllocError, Global};

/// Gives the first number of the list to each of its numbers.
fn put_first(least: &mut Vec<u32>, list: &[u32])
    requires { All (λ x. x < length least.old.items) list.now }
    ensures { PutsFirst least.old.items least.new.items list.now }
{
    for x in list {
        least[*x as usize] = list[0];
    }
}

/// For each cell the first cell of its list, or the cell itself where it stands in none.
pub(crate) fn firsts_of(
    alloc: Global,
    cells: usize,
    lists: &[Vec<u32>],
) -> Result<Vec<u32>, AllocError>
    requires count { cells < 2 ^ 32 }
    requires cells { (k x : ℕ) → ListedStep (items_of lists.now) k x → x < cells }
    ensures { IfOk result (λ least. TellsFirst (items_of lists.now) (length lists.now) cells least.items) }
{
    let mut least = Vec::new(alloc);
    for x in 0..cells as u32 {
        least.push(x)?;
    }
    for list in lists {
        put_first(&mut least, list);
    }
    Ok(least)
}

/// For each cell the first cell that has its label.
pub(crate) fn firsts_by_label(alloc: Global, labels: &[u32]) -> Result<Vec<u32>, AllocError>
    requires count { length labels.now < 2 ^ 32 }
    requires labels { All (λ p. p < length labels.now) labels.now }
    ensures { IfOk result (λ least. TellsFirstByLabel labels.now least.items) }
{
    let none = labels.len() as u32;
    let mut first = vec![in alloc; none; labels.len()]?;
    let mut least = Vec::new(alloc);
    for x in 0..none {
        let label = labels[x as usize] as usize;
        if first[label] == none {
            first[label] = x;
        }
        least.push(first[label])?;
    }
    Ok(least)
}

/// Numbers for the cells, one for those that have one least cell, in the order of these.
pub(crate) fn numbers_of(alloc: Global, least: &[u32]) -> Result<Vec<u32>, AllocError>
    requires count { length least.now < 2 ^ 32 }
    requires least { AreLeast least.now }
    ensures { IfOk result (λ part_of. (next : ℕ) × NumbersSoFar least.now (length least.now) part_of.items next) }
{
    let mut part_of = Vec::new(alloc);
    let mut next = 0;
    for x in 0..least.len() {
        let first = least[x] as usize;
        if first == x {
            part_of.push(next)?;
            next += 1;
        } else {
            let number = part_of[first];
            part_of.push(number)?;
        }
    }
    Ok(part_of)
}
