ghost use Rattle.std.specs.Prelude.{◌≡◌, IfOk, length};
ghost use Rattle.conley_lists.specs.Lists.{items_of, IsDigraph};

use conley_fixtures::lists_of;
use conley_lists::first_out_of_range;
use conley_walk::{reached, reached_from};
use std::alloc::Global;
use std::test::Fail;

/// Four nodes: 0 to 1 and 2, 1 to 0, 2 to nothing, 3 to 2.
const FOUR: [&[u32]; 4] = [&[2, 1, 2], &[0], &[], &[2]];

/// The lists of the four nodes, of which each entry is a node.
fn four_nodes(alloc: Global) -> Result<Vec<Vec<u32>>, Fail>
    ensures digraph { IfOk result (λ lists. IsDigraph (items_of lists.items)) }
    ensures count { IfOk result (λ lists. length lists.items ≡ 4) }
{
    let lists = lists_of(alloc, &FOUR)?;
    if let Some(_entry) = first_out_of_range(&lists) {
        return Err("no digraph".into());
    }
    if lists.len() != 4 {
        return Err("not four nodes".into());
    }
    Ok(lists)
}

#[test]
fn a_search_marks_what_is_reached(rt: HostRuntime) -> Result<(), Fail> {
    let lists = four_nodes(rt.alloc())?;
    let found = reached(rt.alloc(), &lists, 1)?;
    assert!(rt; found.as_slice() == [true, true, true, false].as_slice());
    Ok(())
}

#[test]
fn a_search_begins_at_several_nodes(rt: HostRuntime) -> Result<(), Fail> {
    let lists = four_nodes(rt.alloc())?;
    let found = reached_from(rt.alloc(), &lists, &[2, 3])?;
    assert!(rt; found.as_slice() == [false, false, true, true].as_slice());
    Ok(())
}
