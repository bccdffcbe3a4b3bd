//! Invariant parts, isolation and reports.

ghost use Rattle.std.specs.Prelude.{◌≡◌, ◌↔◌, ◌<◌, ℕ, All, Contains, IfOk, IsTrue, true, length, slice_index};
ghost use Rattle.std.specs.List.Sorted.{IsStrictlyIncreasing};
ghost use Rattle.conley_lists.specs.Lists.{items_of, IsMarked};
ghost use Rattle.conley_faces.specs.Face.{IsCellList, IsLocallyClosed};
ghost use Rattle.conley_faces.specs.Closures.{IsPart};
ghost use Rattle.conley_mvf.specs.Partition.{IsMultivectorField, ShareAPart};
ghost use Rattle.conley_isolation.specs.Report.{IsInvariantPart, IsIsolated, IsReport, findings_of};

use crate::NoMemory;
use crate::places::{firsts_of, parts_of};
use crate::starts::starts;
use crate::within::within_set;
use conley_digraph::turned_round;
use conley_field::Field;
use conley_homology::numbers;
use conley_lefschetz::Complex;
use conley_lists::stands_in;
use conley_mvf::Partition;
use conley_walk::reached_from;
use std::alloc::Global;

/// What is told of a set of cells.
#[derive(Drop)]
pub struct SetReport {
    /// The cells on some lasso inside the set, ascending.
    pub invariant: Vec<u32>,
    /// Whether the set is its invariant part and some closed set isolates it.
    pub isolated: bool,
    /// The Conley numbers of the set, one for each dimension below the levels, where it is isolated.
    pub index: Option<Vec<u32>>,
}

/// The cells of the set whose places have a mark in both rows.
fn marked(alloc: Global, set: &[u32], row: &[bool], other: &[bool]) -> Result<Vec<u32>, NoMemory>
    requires set { IsStrictlyIncreasing set.now }
    requires row { length row.now ≡ length set.now }
    requires other { length other.now ≡ length set.now }
    ensures { IfOk result (λ part. IsPart (λ x. (i : ℕ) × (i < length set.now) × (slice_index set.now i ≡ x) × IsMarked row.now i × IsMarked other.now i)
        set.now part.items) }
{
    let mut part = Vec::new(alloc);
    for (i, x) in set.iter().enumerate() {
        if row[i] && other[i] {
            part.push(*x)?;
        }
    }
    Ok(part)
}

/// The cells on some lasso inside the set, ascending: those to which a walk inside the set leads from an essential closed walk,
/// and from which one leads to one. In a part that is critical each cell of the set is such a walk, even if the set hasn't all of the part.
pub fn invariant_part<F: Field>(
    alloc: Global,
    complex: &Complex<F>,
    partition: &Partition,
    set: &[u32],
) -> Result<Vec<u32>, NoMemory>
    requires field { IsMultivectorField complex.now.1.faces partition.now }
    requires set { IsCellList complex.now.1.faces set.now }
    ensures { IfOk result (λ cells. IsInvariantPart (F.arithmetic complex.now.0) complex.now.1 partition.now set.now cells.items) }
{
    let faces = complex.faces();
    let _order = faces.count();
    let within = within_set(alloc, faces, partition, set)?;
    let starts = starts(alloc, complex, partition, set, &within)?;
    let forward = reached_from(alloc, &within.steps, &starts)?;
    let turned = turned_round(alloc, &within.steps)?;
    let backward = reached_from(alloc, &turned, &starts)?;
    let part = marked(alloc, set, &forward, &backward)?;
    Ok(part)
}

/// Whether the set has all these cells.
fn has_all(set: &[u32], cells: &[u32]) -> bool
    requires { IsStrictlyIncreasing set.now }
    ensures { IsTrue result ↔ ((y : ℕ) → Contains cells.now y → Contains set.now y) }
{
    for y in cells {
        if !stands_in(set, *y) {
            return false;
        }
    }
    true
}

/// Whether the set has with a cell all cells of its part. Each part is looked at once.
fn is_union(alloc: Global, partition: &Partition, set: &[u32]) -> Result<bool, NoMemory>
    requires set { IsStrictlyIncreasing set.now }
    requires cells { All (λ x. x < length partition.now) set.now }
    ensures { IfOk result (λ answer. IsTrue answer ↔ ((x y : ℕ) → Contains set.now x → ShareAPart partition.now x y → Contains set.now y)) }
{
    let parts = parts_of(alloc, partition, set)?;
    let firsts = firsts_of(alloc, &parts, partition.count())?;
    for (i, p) in parts.iter().enumerate() {
        if firsts[i] as usize == i && !has_all(set, partition.cells_of(*p)) {
            return Ok(false);
        }
    }
    Ok(true)
}

/// Whether the set, whose invariant part is given, is isolated: it is its invariant part, a union of parts, and has no gap.
/// Its closure then isolates it.
fn is_isolated<F: Field>(
    alloc: Global,
    complex: &Complex<F>,
    partition: &Partition,
    set: &[u32],
    invariant: &[u32],
) -> Result<bool, NoMemory>
    requires field { IsMultivectorField complex.now.1.faces partition.now }
    requires set { IsCellList complex.now.1.faces set.now }
    requires invariant { IsInvariantPart (F.arithmetic complex.now.0) complex.now.1 partition.now set.now invariant.now }
    ensures isolated { IfOk result (λ answer. IsTrue answer ↔ IsIsolated (F.arithmetic complex.now.0) complex.now.1 partition.now set.now) }
    ensures closed { result ≡ Ok true → IsLocallyClosed complex.now.1.faces set.now }
{
    let faces = complex.faces();
    let _closures = faces.all_faces();
    if !has_all(invariant, set) {
        return Ok(false);
    }
    if !is_union(alloc, partition, set)? {
        return Ok(false);
    }
    if let Some(_) = faces.find_gap(set) {
        return Ok(false);
    }
    Ok(true)
}

/// Whether the set equals its invariant part and some closed set isolates it. The empty set is isolated.
pub fn isolated<F: Field>(
    alloc: Global,
    complex: &Complex<F>,
    partition: &Partition,
    set: &[u32],
) -> Result<bool, NoMemory>
    requires field { IsMultivectorField complex.now.1.faces partition.now }
    requires set { IsCellList complex.now.1.faces set.now }
    ensures { IfOk result (λ answer. IsTrue answer ↔ IsIsolated (F.arithmetic complex.now.0) complex.now.1 partition.now set.now) }
{
    let invariant = invariant_part(alloc, complex, partition, set)?;
    let answer = is_isolated(alloc, complex, partition, set, &invariant)?;
    Ok(answer)
}

/// The invariant part of the set, whether it is isolated, and exactly then its Conley numbers.
pub fn report<F: Field>(
    alloc: Global,
    complex: &Complex<F>,
    partition: &Partition,
    set: &[u32],
) -> Result<SetReport, NoMemory>
    requires field { IsMultivectorField complex.now.1.faces partition.now }
    requires set { IsCellList complex.now.1.faces set.now }
    ensures { IfOk result (λ told. IsReport (F.arithmetic complex.now.0) complex.now.1 partition.now set.now (findings_of told)) }
{
    let invariant = invariant_part(alloc, complex, partition, set)?;
    if !is_isolated(alloc, complex, partition, set, &invariant)? {
        return Ok(SetReport {
            invariant,
            isolated: false,
            index: None,
        });
    }
    let numbers = numbers(alloc, complex, set)?;
    Ok(SetReport {
        invariant,
        isolated: true,
        index: Some(numbers),
    })
}
