use conley_fixtures::lists_of;
use conley_lists::{
    all_numbers, all_ordered, empty_lists, first_out_of_range, gathered, ordered, place_of, put_at,
    put_under, stands_in,
};
use std::test::Fail;

/// Four nodes: 0 to 1 and 2, 1 to 0, 2 to nothing, 3 to 2.
const FOUR: [&[u32]; 4] = [&[2, 1, 2], &[0], &[], &[2]];

#[test]
fn lists_are_put_in_order(rt: HostRuntime) -> Result<(), Fail> {
    assert!(rt; ordered(rt.alloc(), &[2, 1, 2])?.as_slice() == [1, 2].as_slice());
    let copy = all_ordered(rt.alloc(), &lists_of(rt.alloc(), &FOUR)?)?;
    assert!(rt; copy.len() == 4 && copy[0].as_slice() == [1, 2].as_slice());
    Ok(())
}

#[test]
fn a_number_stands_in_a_list(rt: HostRuntime) {
    assert!(rt; stands_in(&[1, 2], 2) && !stands_in(&[1, 2], 0));
    assert!(rt; place_of(&[1, 4], 4) == Some(1) && place_of(&[1, 4], 2).is_none());
}

#[test]
fn a_list_gains_a_number(rt: HostRuntime) -> Result<(), Fail> {
    let mut lists = lists_of(rt.alloc(), &FOUR)?;
    assert!(rt; lists.len() == 4 && first_out_of_range(&lists).is_none());
    put_under(&mut lists, 2, 4)?;
    assert!(rt; lists[2].as_slice() == [4].as_slice() && first_out_of_range(&lists) == Some(4));
    Ok(())
}

#[test]
fn places_are_gathered_by_their_numbers(rt: HostRuntime) -> Result<(), Fail> {
    let lists = gathered(rt.alloc(), &[0, 1, 0])?;
    assert!(rt; lists.len() == 2);
    assert!(rt; lists[0].as_slice() == [0, 2].as_slice() && lists[1].as_slice() == [1].as_slice());
    Ok(())
}

#[test]
fn lists_to_begin_with(rt: HostRuntime) -> Result<(), Fail> {
    let mut numbers = all_numbers(rt.alloc(), 4)?;
    assert!(rt; numbers.as_slice() == [0, 1, 2, 3].as_slice());
    put_at(&mut numbers, &[3, 1], 7);
    assert!(rt; numbers.as_slice() == [0, 7, 2, 7].as_slice());
    let lists = empty_lists(rt.alloc(), 2)?;
    assert!(rt; lists.len() == 2 && lists[0].is_empty() && lists[1].is_empty());
    Ok(())
}
