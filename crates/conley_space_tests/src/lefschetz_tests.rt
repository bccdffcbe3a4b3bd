use crate::entries::has_entries;
use conley_field::{Field, PrimeField};
use conley_fixtures::{complex_of, labels_of};
use conley_lefschetz::{Complex, ComplexError};
use std::alloc::Global;
use std::test::Fail;

/// Two edges and three vertices over three elements.
fn path(alloc: Global) -> Result<Complex<PrimeField>, Fail> {
    let labels = labels_of(alloc, &["a", "b", "c", "ab", "bc"])?;
    let dims = Vec::from_slice(alloc, &[0, 0, 0, 1, 1])?;
    let triples = [(3, 0, 2), (3, 1, 1), (4, 2, 1), (4, 1, 2)];
    Ok(complex_of(alloc, PrimeField::Three, labels, dims, &triples)??)
}

/// Whether the cells are those of the listing.
fn are_listed(complex: &Complex<PrimeField>) -> bool {
    complex.count() == 5
        && complex.levels() == 2
        && complex.field().order() == 3
        && complex.dims() == [0u8, 0, 0, 1, 1].as_slice()
        && complex.label(3) == "ab"
        && complex.dim(3) == 1
        && complex.faces().count() == 5
        && complex.faces().direct(4) == [1u32, 2].as_slice()
}

#[test]
fn two_edges_and_three_vertices(rt: HostRuntime) -> Result<(), Fail> {
    let complex = path(rt.alloc())?;
    assert!(rt; are_listed(&complex));
    assert!(rt; complex.cell_of("bc") == Some(4) && complex.cell_of("ca").is_none());
    Ok(())
}

/// Entries of the boundary of the two edges.
const BOUNDARY: [(u32, u32, u8); 6] = [
    (0, 3, 2),
    (1, 3, 1),
    (2, 3, 0),
    (1, 4, 2),
    (2, 4, 1),
    (3, 4, 0),
];

#[test]
fn incidences_are_the_boundary(rt: HostRuntime) -> Result<(), Fail> {
    let complex = path(rt.alloc())?;
    let boundary = complex.boundary();
    assert!(rt;
        boundary.rows() == 5 && boundary.columns() == 5 && has_entries(boundary, &BOUNDARY)
    );
    Ok(())
}

/// What is told of a listing over two elements, and how many levels it has where it makes a complex.
fn told_of(
    alloc: Global,
    texts: &[&str],
    dims: &[u8],
    triples: &[(u32, u32, u8)],
) -> Result<Result<usize, ComplexError>, Fail> {
    let labels = labels_of(alloc, texts)?;
    let dims = Vec::from_slice(alloc, dims)?;
    let complex = complex_of(alloc, PrimeField::Two, labels, dims, triples)?;
    Ok(complex.map(|complex| complex.levels()))
}

#[test]
fn no_cells_have_no_levels(rt: HostRuntime) -> Result<(), Fail> {
    assert!(rt; told_of(rt.alloc(), &[], &[], &[])? == Ok(0));
    Ok(())
}

/// Listings of three cells, of which the last has dimension 1, with what is told of them.
const REFUSED: [([&str; 3], [(u32, u32, u8); 2], ComplexError); 6] = [
    (
        ["a", "b", "a"],
        [(9, 0, 1), (2, 1, 1)],
        ComplexError::DuplicateLabel(0, 2),
    ),
    (
        ["a", "a", "a"],
        [(2, 0, 1), (2, 1, 1)],
        ComplexError::DuplicateLabel(0, 1),
    ),
    (
        ["a", "b", "ab"],
        [(2, 9, 1), (2, 1, 1)],
        ComplexError::BadIncidence(0, 1),
    ),
    (
        ["a", "b", "ab"],
        [(2, 0, 1), (0, 2, 0)],
        ComplexError::BadIncidence(1, 2),
    ),
    (
        ["a", "b", "ab"],
        [(2, 0, 0), (2, 0, 0)],
        ComplexError::BadIncidence(0, 3),
    ),
    (
        ["a", "b", "ab"],
        [(2, 0, 1), (2, 0, 1)],
        ComplexError::BadIncidence(1, 4),
    ),
];

#[test]
fn listings_that_make_no_complex(rt: HostRuntime) -> Result<(), Fail> {
    for (texts, triples, error) in &REFUSED {
        assert!(rt; told_of(rt.alloc(), texts, &[0, 0, 1], triples)? == Err(*error));
    }
    Ok(())
}

const SQUARE: [&str; 9] = ["p", "q", "r", "s", "pq", "qr", "rs", "sp", "f"];

const SQUARE_DIMS: [u8; 9] = [0, 0, 0, 0, 1, 1, 1, 1, 2];

/// The incidences of the square; without the last one its second vertex isn't an end of its first edge.
const SQUARE_INCIDENCES: [(u32, u32, u8); 12] = [
    (4, 0, 1),
    (5, 1, 1),
    (5, 2, 1),
    (6, 2, 1),
    (6, 3, 1),
    (7, 3, 1),
    (7, 0, 1),
    (8, 4, 1),
    (8, 5, 1),
    (8, 6, 1),
    (8, 7, 1),
    (4, 1, 1),
];

#[test]
fn a_square_with_an_end_missing(rt: HostRuntime) -> Result<(), Fail> {
    let whole = &SQUARE_INCIDENCES;
    let refused = told_of(rt.alloc(), &SQUARE, &SQUARE_DIMS, &whole[..11])?;
    assert!(rt; refused == Err(ComplexError::NotBoundary(8, 1)));
    assert!(rt; told_of(rt.alloc(), &SQUARE, &SQUARE_DIMS, whole)? == Ok(3));
    Ok(())
}
