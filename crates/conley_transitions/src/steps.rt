//! The digraph of transitions.

ghost use Rattle.std.specs.Prelude.{◌≡◌, ◌+◌, ◌<◌, ◌≤◌, ◌↔◌, ℕ, Contains, IfOk, length, slice_index};
ghost use Rattle.std.specs.List.Sorted.{IsStrictlyIncreasing};
ghost use Rattle.conley_walk.specs.Walk.{Reaches};
ghost use Rattle.conley_lists.specs.Lists.{items_of, ListedStep};
ghost use Rattle.conley_mvf.specs.Partition.{IsMultivectorField};
ghost use Rattle.conley_transitions.specs.Step.{Step, HasTransitions};
ghost use Rattle.conley_transitions.specs.Making.{IsNextIn, HasHeads, HasTransitionsSoFar};

use crate::NoMemory;
use conley_digraph::{Digraph, DigraphError};
use conley_faces::Faces;
use conley_mvf::Partition;
use std::alloc::{AllocError, Global};

/// Where x stands in an ascending list, by binary search.
fn place_in(cells: &[u32], x: u32) -> usize
    requires ascending { IsStrictlyIncreasing cells.now }
    requires cell { Contains cells.now x }
    ensures { (result < length cells.now) × (slice_index cells.now result ≡ x) }
{
    match cells.binary_search(&x) {
        Ok(k) => k,
        Err(_) => unreachable!(),
    }
}

/// What stands after x in an ascending list; after the last stands the first.
fn next_in(cells: &[u32], x: u32) -> u32
    requires ascending { IsStrictlyIncreasing cells.now }
    requires cell { Contains cells.now x }
    ensures { IsNextIn cells.now x result }
{
    let k = place_in(cells, x);
    if k + 1 < cells.len() {
        cells[k + 1]
    } else {
        cells[0]
    }
}

/// The cells directly under x, and in a part of two or more cells the next.
fn heads_of(
    alloc: Global,
    faces: &Faces,
    partition: &Partition,
    x: u32,
) -> Result<Vec<u32>, NoMemory>
    requires field { IsMultivectorField faces.now partition.now }
    requires cell { x < length faces.now }
    ensures { IfOk result (λ heads. HasHeads faces.now partition.now x heads.items) }
{
    let mut heads = Vec::from_slice(alloc, faces.direct(x))?;
    let part = partition.cells_of(partition.part_of(x));
    if part.len() > 1 {
        heads.push(next_in(part, x))?;
    }
    Ok(heads)
}

/// The lists of all heads.
fn all_heads(alloc: Global, faces: &Faces, partition: &Partition) -> Result<Vec<Vec<u32>>, NoMemory>
    requires { IsMultivectorField faces.now partition.now }
    ensures { IfOk result (λ lists. HasTransitionsSoFar faces.now partition.now (length faces.now) (items_of lists.items)) }
{
    let mut lists = Vec::new(alloc);
    for x in 0..faces.count() as u32 {
        lists.push(heads_of(alloc, faces, partition, x)?)?;
    }
    Ok(lists)
}

/// The digraph whose nodes are the cells and whose steps lead from each cell to the cells directly under it and, in a part of
/// two or more cells, to the next cell of the part, from the last to the first. Walks by these connect the cells that walks by
/// all steps connect.
pub fn transitions(alloc: Global, faces: &Faces, partition: &Partition) -> Result<Digraph, NoMemory>
    requires { IsMultivectorField faces.now partition.now }
    ensures steps { IfOk result (HasTransitions faces.now partition.now) }
    ensures reach { IfOk result (λ digraph. (x y : ℕ) → Reaches (ListedStep digraph) x y ↔ Reaches (Step faces.now partition.now) x y) }
{
    let _order = faces.count();
    let lists = all_heads(alloc, faces, partition)?;
    match Digraph::new(alloc, &lists) {
        Ok(digraph) => Ok(digraph),
        Err(DigraphError::NoMemory) => Err(AllocError),
        Err(DigraphError::Range(_)) => unreachable!(),
    }
}
