ghost use Rattle.std.specs.Prelude.{IfOk};
ghost use Rattle.conley_faces.specs.Face.{IsCellList};
ghost use Rattle.conley_mvf.specs.Partition.{IsMultivectorField};

use conley_faces::Faces;
use conley_field::PrimeField;
use conley_fixtures::{lists_of, triangle};
use conley_isolation::{SetReport, invariant_part, isolated, report};
use conley_lefschetz::Complex;
use conley_lists::ordered;
use conley_mvf::Partition;
use std::alloc::Global;
use std::test::Fail;

/// Cells in their order.
fn set_of(alloc: Global, faces: &Faces, cells: &[u32]) -> Result<Vec<u32>, Fail>
    ensures { IfOk result (λ set. IsCellList faces.now set.items) }
{
    let set = ordered(alloc, cells)?;
    let count = faces.count();
    if !set.iter().all(|x| (*x as usize) < count) {
        return Err("no cells".into());
    }
    Ok(set)
}

/// The partition into these parts, and one for each other cell.
fn partition_of(alloc: Global, faces: &Faces, rows: &[&[u32]]) -> Result<Partition, Fail>
    ensures { IfOk result (IsMultivectorField faces.now) }
{
    let parts = lists_of(alloc, rows)?;
    Ok(Partition::whole(alloc, faces, &parts)?)
}

/// Whether the calls for the members of a report tell the same.
fn agrees(
    alloc: Global,
    complex: &Complex<PrimeField>,
    partition: &Partition,
    set: &[u32],
    told: &SetReport,
) -> Result<bool, Fail>
    requires field { IsMultivectorField complex.now.1.faces partition.now }
    requires set { IsCellList complex.now.1.faces set.now }
{
    let part = invariant_part(alloc, complex, partition, set)?;
    let answer = isolated(alloc, complex, partition, set)?;
    Ok(part.as_slice() == told.invariant.as_slice() && answer == told.isolated)
}

/// The report of a set of a triangle with these parts.
fn told(alloc: Global, rows: &[&[u32]], cells: &[u32]) -> Result<SetReport, Fail> {
    let complex = triangle(alloc)?;
    let partition = partition_of(alloc, complex.faces(), rows)?;
    let set = set_of(alloc, complex.faces(), cells)?;
    let told = report(alloc, &complex, &partition, &set)?;
    if !agrees(alloc, &complex, &partition, &set, &told)? {
        return Err("two answers".into());
    }
    Ok(told)
}

/// Whether a set is told to be isolated with this index, or, where this is empty, not to be and without one.
fn has_index(told: &SetReport, index: &[u32]) -> bool {
    match &told.index {
        Some(numbers) => told.isolated && numbers.as_slice() == index,
        None => !told.isolated && index.is_empty(),
    }
}

/// Whether a set is told to have this index and this invariant part.
fn tells(
    alloc: Global,
    rows: &[&[u32]],
    cells: &[u32],
    index: &[u32],
    invariant: &[u32],
) -> Result<bool, Fail> {
    let told = told(alloc, rows, cells)?;
    Ok(has_index(&told, index) && told.invariant.as_slice() == invariant)
}

/// A vertex with an edge, three times round.
const ROUND: [&[u32]; 3] = [&[0, 3], &[1, 4], &[2, 5]];

const ALL: [u32; 7] = [0, 1, 2, 3, 4, 5, 6];

#[test]
fn sets_of_a_circle_with_its_disc_are_isolated_or_not(rt: HostRuntime) -> Result<(), Fail> {
    let alloc = rt.alloc();
    assert!(rt; tells(alloc, &ROUND, &[6], &[0, 0, 1], &[6])?);
    assert!(rt; tells(alloc, &ROUND, &[0, 3], &[], &[])?);
    assert!(rt; tells(alloc, &ROUND, &ALL, &[1, 0, 0], &ALL)?);
    assert!(rt; tells(alloc, &ROUND, &[0], &[], &[])?);
    assert!(rt; tells(alloc, &ROUND, &[], &[0, 0, 0], &[])?);
    Ok(())
}

#[test]
fn a_set_with_a_gap_is_its_invariant_part_and_not_isolated(rt: HostRuntime) -> Result<(), Fail> {
    assert!(rt; tells(rt.alloc(), &[], &[0, 6], &[], &[0, 6])?);
    Ok(())
}

#[test]
fn a_cell_of_a_critical_part_is_invariant_without_the_rest(rt: HostRuntime) -> Result<(), Fail> {
    // The three edges are one part, which is critical.
    assert!(rt; tells(rt.alloc(), &[&[3, 4, 5]], &[3], &[], &[3])?);
    Ok(())
}
