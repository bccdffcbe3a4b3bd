ghost use Rattle.std.specs.Prelude.{◌≡◌, IfOk, length};

use conley_faces::Faces;
use conley_fixtures::lists_of;
use conley_mvf::{PartError, Partition, first_empty, first_unknown};
use std::alloc::Global;
use std::test::Fail;

/// A triangle: three vertices, three edges, and the triangle itself.
const TRIANGLE: [&[u32]; 7] = [&[], &[], &[], &[0, 1], &[1, 2], &[2, 0], &[3, 4, 5]];

/// The faces of the triangle.
pub(crate) fn triangle(alloc: Global) -> Result<Faces, Fail>
    ensures { IfOk result (λ faces. length faces ≡ 7) }
{
    let faces = Faces::new(alloc, &lists_of(alloc, &TRIANGLE)?)?;
    if faces.count() != 7 {
        return Err("not seven cells".into());
    }
    Ok(faces)
}

/// The triangle with these parts.
fn whole(alloc: Global, rows: &[&[u32]]) -> Result<Partition, Fail>
    ensures { IfOk result (λ parts. length parts ≡ 7) }
{
    let faces = triangle(alloc)?;
    let lists = lists_of(alloc, rows)?;
    Ok(Partition::whole(alloc, &faces, &lists)?)
}

/// The parts of the seven cells.
pub(crate) fn numbers_of(partition: &Partition) -> [u32; 7]
    requires { length partition.now ≡ 7 }
{
    [
        partition.part_of(0),
        partition.part_of(1),
        partition.part_of(2),
        partition.part_of(3),
        partition.part_of(4),
        partition.part_of(5),
        partition.part_of(6),
    ]
}

#[test]
fn parts_are_numbered_by_least_cells(rt: HostRuntime) -> Result<(), Fail> {
    let partition = whole(rt.alloc(), &[&[5, 2], &[3, 0]])?;
    assert!(rt; partition.count() == 5);
    assert!(rt; numbers_of(&partition) == [0, 1, 2, 0, 3, 2, 4]);
    let cells = [partition.cells_of(2), partition.cells_of(3)];
    assert!(rt; cells == [[2, 5].as_slice(), [4].as_slice()]);
    Ok(())
}

/// The triangle as the part of the cells that have the label 2.
fn one_part(alloc: Global) -> Result<Partition, Fail>
    ensures { IfOk result (λ parts. length parts ≡ 7) }
{
    let faces = triangle(alloc)?;
    let labels = vec![in alloc; 2; 7]?;
    Ok(Partition::labelled(alloc, &faces, &labels)?)
}

#[test]
fn cells_with_one_label_are_a_part(rt: HostRuntime) -> Result<(), Fail> {
    let partition = one_part(rt.alloc())?;
    assert!(rt; numbers_of(&partition) == [0; 7]);
    Ok(())
}

/// What is told of the triangle with these parts.
fn fault_of(alloc: Global, rows: &[&[u32]]) -> Result<Option<PartError>, Fail> {
    let faces = triangle(alloc)?;
    let lists = lists_of(alloc, rows)?;
    Ok(Partition::whole(alloc, &faces, &lists).err())
}

/// Parts with faults, and which is told.
const FAULTS: [(&[&[u32]], PartError); 6] = [
    (&[&[0, 9]], PartError::Unknown(0, 1)),
    (&[&[0, 6]], PartError::Gap(0, 6, 3, 0)),
    (&[&[0, 3], &[0]], PartError::Repeated(1, 0)),
    (&[&[0, 6], &[]], PartError::EmptyPart(1)),
    (&[&[6, 1], &[0]], PartError::Gap(0, 6, 3, 1)),
    (&[&[3, 1], &[6, 0]], PartError::Gap(1, 6, 3, 0)),
];

#[test]
fn the_first_fault_is_told(rt: HostRuntime) -> Result<(), Fail> {
    for (rows, fault) in &FAULTS {
        assert!(rt; fault_of(rt.alloc(), rows)? == Some(*fault));
    }
    Ok(())
}

#[test]
fn the_first_list_without_cells_is_found(rt: HostRuntime) -> Result<(), Fail> {
    let lists = lists_of(rt.alloc(), &[&[3], &[], &[]])?;
    assert!(rt; first_empty(&lists) == Some(1));
    Ok(())
}

#[test]
fn the_first_unknown_cell_is_found(rt: HostRuntime) -> Result<(), Fail> {
    let lists = lists_of(rt.alloc(), &[&[3, 1], &[0, 9]])?;
    assert!(rt; first_unknown(&lists, 7) == Some((1, 1)) && first_unknown(&lists, 10).is_none());
    Ok(())
}
