ghost use Rattle.conley_faces.specs.Face.{IsCellList};

use conley_field::{PrimeField, Scalar};
use conley_fixtures::triangle;
use conley_homology::{Homology, are_zero, is_regular, numbers, relative};
use conley_lefschetz::Complex;
use std::alloc::Global;
use std::test::Fail;

/// The homology of cells that are found to be locally closed.
pub(crate) fn homology_of(
    alloc: Global,
    complex: &Complex<PrimeField>,
    set: &[u32],
) -> Result<Homology, Fail>
    requires { IsCellList complex.now.1.faces set.now }
{
    if let Some(_gap) = complex.faces().find_gap(set) {
        return Err("a gap".into());
    }
    Ok(relative(alloc, complex, set)?)
}

/// The Conley numbers of cells that are found to be locally closed, and regular exactly where all are 0.
fn numbers_of(alloc: Global, complex: &Complex<PrimeField>, set: &[u32]) -> Result<Vec<u32>, Fail>
    requires { IsCellList complex.now.1.faces set.now }
{
    if let Some(_gap) = complex.faces().find_gap(set) {
        return Err("a gap".into());
    }
    let numbers = numbers(alloc, complex, set)?;
    if is_regular(alloc, complex, set)? != are_zero(&numbers) {
        return Err("regular and critical".into());
    }
    Ok(numbers)
}

/// Whether the set has these Conley numbers, with or without cycles, and so many cycles.
fn has(
    alloc: Global,
    complex: &Complex<PrimeField>,
    set: &[u32],
    wanted: &[u32],
    cycles: usize,
) -> Result<bool, Fail>
    requires { IsCellList complex.now.1.faces set.now }
{
    let homology = homology_of(alloc, complex, set)?;
    Ok(
        numbers_of(alloc, complex, set)?.as_slice() == wanted
            && homology.numbers.as_slice() == wanted
            && homology.cycles.len() == cycles,
    )
}

/// Whether the triangle with its faces is one piece.
fn closure_is_one_piece(alloc: Global) -> Result<bool, Fail> {
    let complex = triangle(alloc)?;
    let set = complex.faces().closure(alloc, &[6])?;
    has(alloc, &complex, &set, &[1, 0, 0], 1)
}

/// Whether the faces of the triangle are a ring.
fn mouth_is_a_ring(alloc: Global) -> Result<bool, Fail> {
    let complex = triangle(alloc)?;
    let set = complex.faces().mouth(alloc, &[6])?;
    has(alloc, &complex, &set, &[1, 1, 0], 2)
}

/// Whether an edge and one of its ends are regular.
fn edge_is_regular(alloc: Global) -> Result<bool, Fail> {
    let complex = triangle(alloc)?;
    let set = complex.faces().between(alloc, 3, 0)?;
    has(alloc, &complex, &set, &[0, 0, 0], 0)
}

/// Whether the triangle by itself has its numbers.
fn cell_has_numbers(alloc: Global) -> Result<bool, Fail> {
    let complex = triangle(alloc)?;
    has(alloc, &complex, &[6], &[0, 0, 1], 1)
}

/// Whether each cycle of the triangle by itself is the triangle.
fn cell_is_its_cycle(alloc: Global) -> Result<bool, Fail> {
    let complex = triangle(alloc)?;
    let homology = homology_of(alloc, &complex, &[6])?;
    Ok(
        homology
            .cycles
            .iter()
            .all(|cycle| cycle.entries() == [(6, Scalar::of(1))].as_slice()),
    )
}

#[test]
fn a_triangle_with_its_faces_is_one_piece(rt: HostRuntime) -> Result<(), Fail> {
    assert!(rt; closure_is_one_piece(rt.alloc())?);
    Ok(())
}

#[test]
fn the_faces_of_a_triangle_are_a_ring(rt: HostRuntime) -> Result<(), Fail> {
    assert!(rt; mouth_is_a_ring(rt.alloc())?);
    Ok(())
}

#[test]
fn an_edge_and_one_end_are_regular(rt: HostRuntime) -> Result<(), Fail> {
    assert!(rt; edge_is_regular(rt.alloc())?);
    Ok(())
}

#[test]
fn a_triangle_alone_is_its_own_cycle(rt: HostRuntime) -> Result<(), Fail> {
    assert!(rt; cell_has_numbers(rt.alloc())? && cell_is_its_cycle(rt.alloc())?);
    Ok(())
}
