//! The numbers of classes of mutual reach.

ghost use Rattle.std.specs.Prelude.{◌≡◌, ◌<◌, ◌≤◌, ◌^◌, ℕ, All, IfOk, length, slice_index};
ghost use Rattle.conley_lists.specs.Lists.{items_of, IsDigraph};
ghost use Rattle.conley_digraph.specs.Classes.{AreClasses};
ghost use Rattle.conley_digraph.specs.Numbering.{IsRenumbered};

use crate::search::closing_of;
use std::alloc::{AllocError, Global};

/// The same classes, numbered from 0 in the order of their least nodes.
pub(crate) fn renumbered(
    alloc: Global,
    numbers: &[usize],
    count: usize,
) -> Result<Vec<u32>, AllocError>
    requires few { length numbers.now < 2 ^ 32 }
    requires below { All (λ k. k < count) numbers.now }
    ensures { IfOk result (λ class_of. IsRenumbered numbers.now class_of.items (length numbers.now)) }
{
    let mut renamed = vec![in alloc; None; count]?;
    let mut class_of = Vec::new(alloc);
    let mut next = 0u32;
    for number in numbers {
        if let Some(class) = renamed[*number] {
            class_of.push(class)?;
        } else {
            class_of.push(next)?;
            renamed[*number] = Some(next);
            next += 1;
        }
    }
    Ok(class_of)
}

/// For each node the number of its class of mutual reach. Classes are numbered from 0 in the order of their least nodes.
/// Each step is looked at once.
pub fn classes(alloc: Global, steps: &[Vec<u32>]) -> Result<Vec<u32>, AllocError>
    requires digraph { IsDigraph (items_of steps.now) }
    requires count { length steps.now < 2 ^ 32 }
    ensures classes { IfOk result (λ class_of. AreClasses (items_of steps.now) class_of.items) }
    ensures low { IfOk result (λ class_of. (x : ℕ) → x < length steps.now → slice_index class_of.items x ≤ x) }
{
    let closing = closing_of(alloc, steps)?;
    renumbered(alloc, &closing.numbers, closing.roots.len())
}
