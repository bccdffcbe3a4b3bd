use crate::entries::has_entries;
use conley_cubical::{CubicalError, cubical};
use conley_field::PrimeField;
use conley_fixtures::has_labels;
use conley_lefschetz::Complex;
use std::alloc::Global;
use std::test::Fail;

/// The complex of cubes over the field of order 3.
fn made(
    alloc: Global,
    axes: usize,
    lists: &[&[(i32, i32)]],
    most: usize,
) -> Result<Result<Complex<PrimeField>, CubicalError>, Fail> {
    let mut cubes = Vec::new(alloc);
    for list in lists {
        cubes.push(Vec::from_slice(alloc, list)?)?;
    }
    if axes >= 100 || cubes.len() >= 100 || most >= 30_000 {
        return Err("too long a table".into());
    }
    Ok(cubical(alloc, PrimeField::Three, axes, &cubes, most))
}

const SQUARE: [&str; 9] = [
    "0,0", "0,1", "1,0", "1,1", "0,0+", "0+,0", "0+,1", "1,0+", "0+,0+",
];

/// On the first axis the upper edge has 1 and the lower -1, on the second the other way.
const SIDES: [(u32, u32, u8); 7] = [
    (4, 8, 2),
    (5, 8, 1),
    (6, 8, 2),
    (7, 8, 1),
    (3, 8, 0),
    (0, 4, 2),
    (1, 4, 1),
];

#[test]
fn a_square_has_its_edges_with_signs(rt: HostRuntime) -> Result<(), Fail> {
    let complex = made(rt.alloc(), 2, &[&[(0, 1), (0, 1)]], 9)??;
    assert!(rt; has_labels(&complex, &SQUARE) && has_entries(complex.boundary(), &SIDES));
    Ok(())
}

#[test]
fn negative_numbers_stand_before_others(rt: HostRuntime) -> Result<(), Fail> {
    let lists: [&[(i32, i32)]; 3] = [&[(3, 3)], &[(-1, 0)], &[(-1, 0)]];
    let complex = made(rt.alloc(), 1, &lists, 20)??;
    assert!(rt; has_labels(&complex, &["-1", "0", "3", "-1+"]));
    Ok(())
}

/// Axes and cubes, the most cells, and what is told of them.
const REFUSED: [(usize, &[&[(i32, i32)]], usize, CubicalError); 9] = [
    (0, &[&[(0, 2)]], 20, CubicalError::BadAxes(0)),
    (16, &[], 20, CubicalError::BadAxes(16)),
    (1, &[&[(0, 2)]], 0, CubicalError::BadCube(0)),
    (1, &[&[(0, 1)], &[(1, 0)]], 20, CubicalError::BadCube(1)),
    (2, &[&[(0, 1)]], 20, CubicalError::BadCube(0)),
    (
        1,
        &[&[(1_000_000, 1_000_001)]],
        20,
        CubicalError::BadCube(0),
    ),
    (
        1,
        &[&[(-1_000_001, -1_000_000)]],
        20,
        CubicalError::BadCube(0),
    ),
    (2, &[&[(0, 1), (0, 1)]], 8, CubicalError::TooManyCells(9)),
    (
        1,
        &[&[(-1_000_000, -1_000_000)]],
        0,
        CubicalError::TooManyCells(1),
    ),
];

#[test]
fn axes_and_cubes_that_make_no_complex(rt: HostRuntime) -> Result<(), Fail> {
    for (axes, lists, most, error) in &REFUSED {
        assert!(rt; made(rt.alloc(), *axes, lists, *most)?.err() == Some(*error));
    }
    Ok(())
}
