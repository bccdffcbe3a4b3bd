//! Digraphs turned round.

ghost use Rattle.std.specs.Prelude.{◌<◌, ◌^◌, All, IfOk, OnOk, length};
ghost use Rattle.conley_lists.specs.Lists.{items_of, IsDigraph};
ghost use Rattle.conley_digraph.specs.Turning.{PutsUnderEach, StayAscending, IsTurnedRound};

use conley_lists::{empty_lists, put_under};
use std::alloc::{AllocError, Global};

/// Puts x at the end of the list of each head.
fn put_under_each(lists: &mut Vec<Vec<u32>>, heads: &[u32], x: u32) -> Result<(), AllocError>
    requires { All (λ y. y < length lists.old.items) heads.now }
    ensures puts { OnOk result (PutsUnderEach (items_of lists.old.items) (items_of lists.new.items) heads.now x) }
    ensures ascending { OnOk result (StayAscending (items_of lists.old.items) (items_of lists.new.items) heads.now x) }
{
    for y in heads {
        put_under(lists, *y, x)?;
    }
    Ok(())
}

/// The digraph with a step from y to x for each step from x to y. Its lists ascend where those given do.
pub fn turned_round(alloc: Global, steps: &[Vec<u32>]) -> Result<Vec<Vec<u32>>, AllocError>
    requires digraph { IsDigraph (items_of steps.now) }
    requires count { length steps.now < 2 ^ 32 }
    ensures { IfOk result (λ lists. IsTurnedRound (items_of steps.now) (items_of lists.items)) }
{
    let mut lists = empty_lists(alloc, steps.len())?;
    for x in 0..steps.len() as u32 {
        put_under_each(&mut lists, &steps[x as usize], x)?;
    }
    Ok(lists)
}
