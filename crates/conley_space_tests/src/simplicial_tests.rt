use crate::entries::has_entries;
use conley_field::PrimeField;
use conley_fixtures::{has_labels, labels_of, lists_of};
use conley_lefschetz::Complex;
use conley_simplicial::{SimplicialError, simplicial};
use std::alloc::Global;
use std::test::Fail;

/// The complex of vertices and simplices over the field of order 3.
fn made(
    alloc: Global,
    texts: &[&str],
    lists: &[&[u32]],
    most: usize,
) -> Result<Result<Complex<PrimeField>, SimplicialError>, Fail> {
    let vertices = labels_of(alloc, texts)?;
    let simplices = lists_of(alloc, lists)?;
    if vertices.len() >= 100 || most >= 30_000 {
        return Err("too long a table".into());
    }
    Ok(simplicial(alloc, PrimeField::Three, &vertices, &simplices, most))
}

/// An edge is its second vertex less its first.
const EDGE: [(u32, u32, u8); 3] = [(0, 2, 2), (1, 2, 1), (2, 2, 0)];

#[test]
fn an_edge_has_its_ends_with_signs(rt: HostRuntime) -> Result<(), Fail> {
    let complex = made(rt.alloc(), &["a", "b"], &[&[0, 1]], 20)??;
    assert!(rt; has_labels(&complex, &["a", "b", "a.b"]) && has_entries(complex.boundary(), &EDGE));
    Ok(())
}

const TRIANGLE: [&str; 8] = ["a", "b", "c", "d", "a.b", "a.c", "b.c", "a.b.c"];

/// Of the triangle b.c has the sign of leaving out place 0, a.c of place 1, a.b of place 2.
const SIDES: [(u32, u32, u8); 4] = [(4, 7, 1), (5, 7, 2), (6, 7, 1), (0, 7, 0)];

#[test]
fn a_triangle_has_its_edges_in_order_and_a_vertex_stands_alone(
    rt: HostRuntime,
) -> Result<(), Fail> {
    let lists: [&[u32]; 3] = [&[2, 1, 0], &[0, 1], &[1, 2, 0]];
    let complex = made(rt.alloc(), &["a", "b", "c", "d"], &lists, 8)??;
    assert!(rt; has_labels(&complex, &TRIANGLE) && has_entries(complex.boundary(), &SIDES));
    Ok(())
}

/// Labels and simplices, the most cells, and what is told of them.
const REFUSED: [(&[&str], &[&[u32]], usize, SimplicialError); 9] = [
    (&["a.b"], &[&[0, 0]], 20, SimplicialError::BadLabel(0)),
    (&["a", ""], &[], 20, SimplicialError::BadLabel(1)),
    (&["a", "b c"], &[], 20, SimplicialError::BadLabel(1)),
    (
        &["a", "b", "b", "a"],
        &[&[]],
        20,
        SimplicialError::DuplicateLabel(1, 2),
    ),
    (&["a", "b"], &[&[0, 0]], 1, SimplicialError::BadSimplex(0)),
    (
        &["a", "b"],
        &[&[0, 1], &[]],
        20,
        SimplicialError::BadSimplex(1),
    ),
    (&["a", "b"], &[&[0, 2]], 20, SimplicialError::BadSimplex(0)),
    (&["a", "b"], &[&[0, 1]], 2, SimplicialError::TooManyCells(3)),
    (&["a"], &[], 0, SimplicialError::TooManyCells(1)),
];

#[test]
fn vertices_and_simplices_that_make_no_complex(rt: HostRuntime) -> Result<(), Fail> {
    for (texts, lists, most, error) in &REFUSED {
        assert!(rt; made(rt.alloc(), texts, lists, *most)?.err() == Some(*error));
    }
    Ok(())
}

const ALL: [u32; 14] = [0, 1, 2, 3, 4, 5, 6, 7, 8, 9, 10, 11, 12, 13];

const NAMES: [&str; 14] = [
    "0", "1", "2", "3", "4", "5", "6", "7", "8", "9", "10", "11", "12", "13",
];

#[test]
fn a_simplex_with_14_vertices_has_16_383_cells(rt: HostRuntime) -> Result<(), Fail> {
    let complex = made(rt.alloc(), &NAMES, &[&ALL], 16_383)??;
    assert!(rt; complex.count() == 16_383 && complex.levels() == 14);
    Ok(())
}
