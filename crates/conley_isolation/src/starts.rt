//! Places on essential closed walks within a set, at least one of each class that counts there.

ghost use Rattle.std.specs.Prelude.{◌≡◌, ◌≢◌, ◌⊎◌, ◌↔◌, ◌<◌, ◌^◌, ℕ, All, Contains, OnOk, IfOk, IsTrue, true, false, length, slice_index};
ghost use Rattle.conley_lists.specs.Lists.{items_of, IsDigraph};
ghost use Rattle.conley_faces.specs.Face.{IsCellList};
ghost use Rattle.conley_mvf.specs.Partition.{IsPartNumber, IsMultivectorField};
ghost use Rattle.conley_transitions.specs.Flow.{IsCalledRegular};
ghost use Rattle.conley_graph.specs.Decomposition.{flow_of};
ghost use Rattle.conley_isolation.specs.Making.{Crosses, IsStart, IsWithin};

use crate::NoMemory;
use crate::within::Within;
use conley_digraph::classes;
use conley_field::Field;
use conley_homology::is_regular;
use conley_lefschetz::Complex;
use conley_mvf::Partition;
use std::alloc::Global;

/// Whether a part is regular.
fn is_regular_part<F: Field>(
    alloc: Global,
    complex: &Complex<F>,
    partition: &Partition,
    p: u32,
) -> Result<bool, NoMemory>
    requires field { IsMultivectorField complex.now.1.faces partition.now }
    requires part { IsPartNumber partition.now p }
    ensures { IfOk result (λ answer. IsTrue answer ↔ IsCalledRegular (flow_of (F.arithmetic complex.now.0) complex.now.1 partition.now) p) }
{
    let answer = is_regular(alloc, complex, partition.cells_of(p))?;
    Ok(answer)
}

/// Puts a place where its part isn't regular.
fn put_critical<F: Field>(
    alloc: Global,
    complex: &Complex<F>,
    partition: &Partition,
    p: u32,
    place: u32,
    starts: &mut Vec<u32>,
) -> Result<(), NoMemory>
    requires field { IsMultivectorField complex.now.1.faces partition.now }
    requires part { IsPartNumber partition.now p }
    ensures { OnOk result ((i : ℕ) → Contains starts.new.items i ↔
        (Contains starts.old.items i ⊎ ((i ≡ place) × ¬ IsCalledRegular (flow_of (F.arithmetic complex.now.0) complex.now.1 partition.now) p))) }
{
    if !is_regular_part(alloc, complex, partition, p)? {
        starts.push(place)?;
    }
    Ok(())
}

/// Puts the first place of each part that isn't regular. The whole part is looked at, even if only some of its cells are in the set.
fn put_firsts<F: Field>(
    alloc: Global,
    complex: &Complex<F>,
    partition: &Partition,
    parts: &[u32],
    firsts: &[u32],
    starts: &mut Vec<u32>,
) -> Result<(), NoMemory>
    requires field { IsMultivectorField complex.now.1.faces partition.now }
    requires few { length parts.now < 2 ^ 32 }
    requires parts { All (IsPartNumber partition.now) parts.now }
    requires count { length firsts.now ≡ length parts.now }
    ensures { OnOk result ((i : ℕ) → Contains starts.new.items i ↔ (Contains starts.old.items i ⊎ ((i < length parts.now) × (slice_index firsts.now i ≡ i) ×
        ¬ IsCalledRegular (flow_of (F.arithmetic complex.now.0) complex.now.1 partition.now) (slice_index parts.now i)))) }
{
    for i in 0..parts.len() as u32 {
        if firsts[i as usize] == i {
            put_critical(alloc, complex, partition, parts[i as usize], i, starts)?;
        }
    }
    Ok(())
}

/// Whether a step leads from place i to one of its class in another part.
fn crosses(parts: &[u32], heads: &[u32], class_of: &[u32], i: u32) -> bool
    requires classes { length class_of.now ≡ length parts.now }
    requires place { i < length parts.now }
    requires heads { All (λ j. j < length parts.now) heads.now }
    ensures { IsTrue result ↔ ((j : ℕ) × Contains heads.now j × (slice_index class_of.now j ≡ slice_index class_of.now i)
        × (slice_index parts.now j ≢ slice_index parts.now i)) }
{
    for j in heads {
        if class_of[*j as usize] == class_of[i as usize]
            && parts[*j as usize] != parts[i as usize]
        {
            return true;
        }
    }
    false
}

/// The places from which a step leads to one of another part that leads back.
fn crossing(alloc: Global, parts: &[u32], steps: &[Vec<u32>]) -> Result<Vec<u32>, NoMemory>
    requires digraph { IsDigraph (items_of steps.now) }
    requires places { length steps.now ≡ length parts.now }
    requires few { length steps.now < 2 ^ 32 }
    ensures { IfOk result (λ starts. (i : ℕ) → Contains starts.items i ↔ Crosses (items_of steps.now) parts.now i) }
{
    let class_of = classes(alloc, steps)?;
    let mut starts = Vec::new(alloc);
    for i in 0..steps.len() as u32 {
        if crosses(parts, &steps[i as usize], &class_of, i) {
            starts.push(i)?;
        }
    }
    Ok(starts)
}

/// Places on essential closed walks within the set, to one of which each such place leads and is led to.
pub(crate) fn starts<F: Field>(
    alloc: Global,
    complex: &Complex<F>,
    partition: &Partition,
    set: &[u32],
    within: &Within,
) -> Result<Vec<u32>, NoMemory>
    requires field { IsMultivectorField complex.now.1.faces partition.now }
    requires set { IsCellList complex.now.1.faces set.now }
    requires few { length set.now < 2 ^ 32 }
    requires within { IsWithin complex.now.1.faces partition.now set.now within.now.parts.items within.now.firsts.items (items_of within.now.steps.items) }
    ensures { IfOk result (λ starts. (i : ℕ) → Contains starts.items i ↔
        IsStart (IsCalledRegular (flow_of (F.arithmetic complex.now.0) complex.now.1 partition.now)) within.now.parts.items within.now.firsts.items
        (items_of within.now.steps.items) i) }
{
    let mut starts = crossing(alloc, &within.parts, &within.steps)?;
    put_firsts(
        alloc,
        complex,
        partition,
        &within.parts,
        &within.firsts,
        &mut starts,
    )?;
    Ok(starts)
}
