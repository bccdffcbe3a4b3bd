ghost use Rattle.std.specs.Prelude.{◌≡◌, IfOk, length};

use crate::mvf_tests::{numbers_of, triangle};
use conley_fixtures::lists_of;
use conley_hull::{HullError, hull};
use conley_mvf::Partition;
use std::alloc::Global;
use std::test::Fail;

/// The hull of these lists in the triangle.
fn hull_of(alloc: Global, rows: &[&[u32]]) -> Result<Partition, Fail>
    ensures { IfOk result (λ parts. length parts ≡ 7) }
{
    let faces = triangle(alloc)?;
    let lists = lists_of(alloc, rows)?;
    Ok(hull(alloc, &faces, &lists)?)
}

/// Lists, and the part of each cell in their hull. The third row has repeats and an empty list.
const HULLS: [(&[&[u32]], [u32; 7]); 4] = [
    (&[], [0, 1, 2, 3, 4, 5, 6]),
    (&[&[0, 6]], [0, 1, 2, 0, 3, 0, 0]),
    (&[&[0, 6, 0], &[], &[6]], [0, 1, 2, 0, 3, 0, 0]),
    (&[&[0, 6], &[1, 3]], [0, 0, 1, 0, 0, 0, 0]),
];

#[test]
fn parts_gain_what_lies_between_their_cells(rt: HostRuntime) -> Result<(), Fail> {
    for (rows, numbers) in &HULLS {
        let partition = hull_of(rt.alloc(), rows)?;
        assert!(rt; numbers_of(&partition) == *numbers);
    }
    Ok(())
}

/// What is told of a list of the hull that has a number that is no cell.
fn fault_of(alloc: Global) -> Result<Option<HullError>, Fail> {
    let faces = triangle(alloc)?;
    let lists = lists_of(alloc, &[&[0, 9]])?;
    Ok(hull(alloc, &faces, &lists).err())
}

#[test]
fn a_number_that_is_no_cell_is_told(rt: HostRuntime) -> Result<(), Fail> {
    assert!(rt; fault_of(rt.alloc())? == Some(HullError::Unknown(0, 1)));
    Ok(())
}
