ghost use Rattle.std.specs.Prelude.{◌≡◌, IfOk, length};

use conley_faces::{Faces, FacesError, NoMemory};
use conley_fixtures::lists_of;
use std::alloc::Global;
use std::test::Fail;

/// An edge (2) and its ends.
fn edge(alloc: Global) -> Result<Faces, Fail>
    ensures { IfOk result (λ faces. length faces ≡ 3) }
{
    let lists = lists_of(alloc, &[&[], &[], &[0, 1]])?;
    let faces = Faces::new(alloc, &lists)?;
    if faces.count() != 3 {
        return Err("not three cells".into());
    }
    Ok(faces)
}

#[test]
fn an_edge_has_its_ends(rt: HostRuntime) -> Result<(), Fail> {
    let faces = edge(rt.alloc())?;
    assert!(rt; faces.direct(2) == [0, 1].as_slice());
    assert!(rt; faces.all_direct()[2].as_slice() == [0, 1].as_slice());
    assert!(rt; faces.all_faces()[2].as_slice() == [0, 1, 2].as_slice());
    assert!(rt; faces.is_face(2, 0) && faces.find_gap(&[0, 2]).is_none());
    Ok(())
}

/// Whether closure and mouth of the edge, and what is between it and its first end, have these cells.
fn lists_are_right(alloc: Global, faces: &Faces) -> Result<bool, NoMemory>
    requires { length faces.now ≡ 3 }
{
    let closure = faces.closure(alloc, &[2])?;
    let mouth = faces.mouth(alloc, &[2])?;
    let between = faces.between(alloc, 2, 0)?;
    Ok(
        closure.as_slice() == [0, 1, 2].as_slice()
            && mouth.as_slice() == [0, 1].as_slice()
            && between.as_slice() == [0, 2].as_slice(),
    )
}

#[test]
fn closure_and_mouth_of_an_edge(rt: HostRuntime) -> Result<(), Fail> {
    let faces = edge(rt.alloc())?;
    assert!(rt; lists_are_right(rt.alloc(), &faces)?);
    Ok(())
}

/// What is told of one cell with this number directly under it.
fn fault_of(alloc: Global, under: u32) -> Result<Option<FacesError>, Fail> {
    let lists = lists_of(alloc, &[&[under]])?;
    Ok(Faces::new(alloc, &lists).err())
}

#[test]
fn lists_without_faces_are_refused(rt: HostRuntime) -> Result<(), Fail> {
    assert!(rt; fault_of(rt.alloc(), 5)? == Some(FacesError::Range(0)));
    assert!(rt; fault_of(rt.alloc(), 0)? == Some(FacesError::Cycle(0)));
    Ok(())
}
