//! The plain search.

ghost use Rattle.std.specs.Prelude.{◌≡◌, ◌<◌, ◌↔◌, ℕ, [], ◌∷◌, All, OnOk, IfOk, length, vec_len};
ghost use Rattle.conley_walk.specs.Walk.{Reaches};
ghost use Rattle.conley_lists.specs.Lists.{items_of, ListedStep, IsDigraph, IsMarked};
ghost use Rattle.conley_walk.specs.Search.{MarksAll, ReachesFrom};

use std::alloc::{AllocError, Global};

/// Marks each head, and lets each that had no mark wait.
fn mark(heads: &[u32], seen: &mut [bool], waiting: &mut Vec<u32>) -> Result<(), AllocError>
    requires { All (λ y. y < length seen.old) heads.now }
    ensures { OnOk result (MarksAll heads.now seen.old waiting.old.items seen.new waiting.new.items) }
{
    for y in heads {
        let head = *y as usize;
        if !seen[head] {
            seen[head] = true;
            waiting.push(*y)?;
        }
    }
    Ok(())
}

/// For each node whether a walk leads to it from one of the starts, in a row of marks. Each step is looked at once.
pub fn reached_from(
    alloc: Global,
    steps: &[Vec<u32>],
    starts: &[u32],
) -> Result<Vec<bool>, AllocError>
    requires digraph { IsDigraph (items_of steps.now) }
    requires nodes { All (λ x. x < length steps.now) starts.now }
    ensures width { IfOk result (λ row. vec_len row ≡ length steps.now) }
    ensures reach { IfOk result (λ row. (y : ℕ) → IsMarked row.items y ↔ ReachesFrom (items_of steps.now) starts.now y) }
{
    let mut seen = vec![in alloc; false; steps.len()]?;
    let mut waiting = Vec::new(alloc);
    mark(starts, &mut seen, &mut waiting)?;
    while let Some(x) = waiting.pop() {
        mark(&steps[x as usize], &mut seen, &mut waiting)?;
    }
    Ok(seen)
}

/// For each node whether a walk leads to it from `start`, in a row of marks. A node reaches itself.
pub fn reached(alloc: Global, steps: &[Vec<u32>], start: u32) -> Result<Vec<bool>, AllocError>
    requires digraph { IsDigraph (items_of steps.now) }
    requires node { start < length steps.now }
    ensures width { IfOk result (λ row. vec_len row ≡ length steps.now) }
    ensures reach { IfOk result (λ row. (y : ℕ) → IsMarked row.items y ↔ Reaches (ListedStep (items_of steps.now)) start y) }
{
    let row = reached_from(alloc, steps, &[start])?;
    Ok(row)
}
