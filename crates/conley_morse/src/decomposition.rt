//! The finest Morse decomposition.

ghost use Rattle.std.specs.Prelude.{◌≡◌, ◌<◌, ◌≤◌, ◌↔◌, ℕ, true, IfOk, length};
ghost use Rattle.conley_walk.specs.Walk.{Reaches};
ghost use Rattle.conley_lists.specs.Lists.{items_of};
ghost use Rattle.conley_mvf.specs.Partition.{IsMultivectorField};
ghost use Rattle.conley_order.specs.ClassRows.{is_at_or_below};
ghost use Rattle.conley_transitions.specs.Step.{Step};
ghost use Rattle.conley_graph.specs.Decomposition.{IsConleyMorseGraph, HasTooManySets};

use crate::MorseError;
use crate::counting::counted;
use crate::order::covers;
use conley_field::Field;
use conley_lefschetz::Complex;
use conley_lists::gathered;
use conley_mvf::Partition;
use conley_order::ReachRows;
use conley_transitions::transitions;
use std::alloc::Global;

/// The most sets that are given.
const MOST: usize = 2000;

/// The finest Morse decomposition. Sets are known by their places in `sets`.
#[derive(Drop)]
pub struct Decomposition {
    /// The Morse sets, each an ascending list of cells, in the order of their least cells.
    pub sets: Vec<Vec<u32>>,
    /// The Conley numbers of each set, one for each dimension below the levels.
    pub numbers: Vec<Vec<u32>>,
    /// The pairs (p, q) of different sets where p reaches q and no third set lies between, ascending.
    pub order: Vec<(u32, u32)>,
    /// Reach between cells: cell a is at or below cell b where b reaches a.
    pub grading: ReachRows,
}

/// The finest Morse decomposition of the multivector field on the complex, with the Conley numbers of its sets and their order.
/// `TooManyMorse` says how many sets there are, more than 2,000.
pub fn morse<F: Field>(
    alloc: Global,
    complex: &Complex<F>,
    partition: &Partition,
) -> Result<Decomposition, MorseError>
    requires { IsMultivectorField complex.now.1.faces partition.now }
    ensures graph { IfOk result (λ d. IsConleyMorseGraph (F.arithmetic complex.now.0) complex.now.1 partition.now (items_of d.sets.items)
        (items_of d.numbers.items) d.order.items) }
    ensures few { IfOk result (λ d. length d.sets.items ≤ 2000) }
    ensures grading_count { IfOk result (λ d. length d.grading.class_of ≡ length partition.now) }
    ensures grading { IfOk result (λ d. (a b : ℕ) → a < length partition.now → b < length partition.now → (is_at_or_below d.grading a b ≡ true)
        ↔ Reaches (Step complex.now.1.faces partition.now) b a) }
    ensures too_many { (n : ℕ) → result ≡ Err (MorseError.TooManyMorse n) → HasTooManySets (F.arithmetic complex.now.0) complex.now.1 partition.now n }
{
    let faces = complex.faces();
    let _order = faces.count();
    let digraph = transitions(alloc, faces, partition)?;
    let _heads = digraph.count();
    let grading = digraph.reach_rows(alloc)?;
    let classes = gathered(alloc, grading.classes())?;
    let (sets, numbers) = counted(alloc, complex, partition, classes)?;
    if sets.len() > MOST {
        return Err(MorseError::TooManyMorse(sets.len() as u32));
    }
    let order = covers(alloc, &grading, &sets)?;
    Ok(Decomposition {
        sets,
        numbers,
        order,
        grading,
    })
}
