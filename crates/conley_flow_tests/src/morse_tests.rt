use conley_fixtures::{lists_of, triangle};
use conley_morse::{Decomposition, morse};
use conley_mvf::Partition;
use std::alloc::Global;
use std::test::Fail;

/// The Morse sets of a triangle with these parts.
fn found(alloc: Global, rows: &[&[u32]]) -> Result<Decomposition, Fail> {
    let complex = triangle(alloc)?;
    let parts = lists_of(alloc, rows)?;
    let partition = Partition::whole(alloc, complex.faces(), &parts)?;
    Ok(morse(alloc, &complex, &partition)?)
}

/// Whether the lists are these.
fn are(lists: &[Vec<u32>], rows: &[&[u32]]) -> bool {
    if lists.len() != rows.len() {
        return false;
    }
    for i in 0..rows.len() {
        if lists[i].as_slice() != rows[i] {
            return false;
        }
    }
    true
}

#[test]
fn regular_parts_round_a_circle_are_one_set(rt: HostRuntime) -> Result<(), Fail> {
    let found = found(rt.alloc(), &[&[0, 3], &[1, 4], &[2, 5]])?;
    assert!(rt; are(&found.sets, &[&[0, 1, 2, 3, 4, 5], &[6]]));
    assert!(rt; are(&found.numbers, &[&[1, 1, 0], &[0, 0, 1]]));
    assert!(rt; found.order.as_slice() == [(1u32, 0u32)].as_slice());
    Ok(())
}

#[test]
fn a_regular_part_alone_is_no_set(rt: HostRuntime) -> Result<(), Fail> {
    let found = found(rt.alloc(), &[&[0, 3], &[1, 4]])?;
    assert!(rt; are(&found.sets, &[&[2], &[5], &[6]]));
    // The triangle reaches the vertex too, but the edge is between.
    assert!(rt; found.order.as_slice() == [(1u32, 0u32), (2, 1)].as_slice());
    Ok(())
}
