ghost use Rattle.std.specs.Prelude.{◌≡◌, ◌<◌, ◌≤◌, IfOk, length};
ghost use Rattle.conley_lists.specs.Lists.{items_of, entries_of};

use conley_digraph::{Digraph, DigraphError, turned_round};
use conley_fixtures::lists_of;
use conley_lists::first_out_of_range;
use conley_order::Grading;
use std::alloc::{AllocError, Global};
use std::test::Fail;

/// Lists of heads, and the classes of their nodes.
const CLASSES: [(&[&[u32]], &[u32]); 2] = [
    // 0 and 1 lead to each other, 2 leads to 0.
    (&[&[1], &[0], &[0]], &[0, 0, 1]),
    // Two classes of two nodes, one leading to the other, and a node by itself between their numbers.
    (&[&[4, 4], &[3, 0], &[2], &[1], &[0]], &[0, 1, 2, 1, 0]),
];

/// The classes of the digraph of these lists.
fn classes_of(alloc: Global, rows: &[&[u32]]) -> Result<Vec<u32>, Fail> {
    let lists = lists_of(alloc, rows)?;
    Ok(Digraph::new(alloc, &lists)?.classes(alloc)?)
}

#[test]
fn classes_are_numbered_by_least_nodes(rt: HostRuntime) -> Result<(), Fail> {
    for (rows, classes) in &CLASSES {
        assert!(rt; classes_of(rt.alloc(), rows)?.as_slice() == *classes);
    }
    Ok(())
}

#[test]
fn heads_stand_in_order(rt: HostRuntime) -> Result<(), Fail> {
    let lists = lists_of(rt.alloc(), CLASSES[1].0)?;
    let digraph = Digraph::new(rt.alloc(), &lists)?;
    assert!(rt; digraph.count() == 5);
    assert!(rt; digraph.heads(0) == [4].as_slice() && digraph.heads(1) == [0, 3].as_slice());
    Ok(())
}

#[test]
fn a_head_is_a_node(rt: HostRuntime) -> Result<(), Fail> {
    let lists = lists_of(rt.alloc(), &[&[3]])?;
    assert!(rt; Digraph::new(rt.alloc(), &lists).err() == Some(DigraphError::Range(0)));
    Ok(())
}

/// The steps of these lists, turned round.
fn turned(alloc: Global, rows: &[&[u32]]) -> Result<Vec<Vec<u32>>, Fail> {
    let lists = lists_of(alloc, rows)?;
    if let Some(_entry) = first_out_of_range(&lists) {
        return Err("no digraph".into());
    }
    Ok(turned_round(alloc, &lists)?)
}

#[test]
fn steps_are_turned_round(rt: HostRuntime) -> Result<(), Fail> {
    let turned = turned(rt.alloc(), &[&[1, 2], &[], &[1]])?;
    assert!(rt; turned.len() == 3 && turned[0].is_empty());
    assert!(rt;
        turned[1].as_slice() == [0, 2].as_slice() && turned[2].as_slice() == [0].as_slice()
    );
    Ok(())
}

/// Of three nodes where 0 and 1 lead to each other and 2 leads to 0, whether walks lead from the second of a pair to the first.
fn below(alloc: Global) -> Result<Option<[bool; 4]>, Fail> {
    let lists = lists_of(alloc, CLASSES[0].0)?;
    let rows = Digraph::new(alloc, &lists)?.reach_rows(alloc)?;
    if rows.cells() != 3 || rows.class_of(2) != 1 {
        return Ok(None);
    }
    Ok(Some([
        rows.below(0, 2),
        rows.below(2, 0),
        rows.below(0, 1),
        rows.below(1, 0),
    ]))
}

#[test]
fn rows_say_where_walks_lead(rt: HostRuntime) -> Result<(), Fail> {
    assert!(rt; below(rt.alloc())? == Some([true, false, true, true]));
    Ok(())
}

/// This many nodes, each leading to the next and the last to the first, or none leading anywhere.
fn many_nodes(alloc: Global, count: u32, ring: bool) -> Result<Vec<Vec<u32>>, AllocError>
    requires { 0 < count }
    ensures count { IfOk result (λ lists. length lists.items ≡ count) }
    ensures entries { IfOk result (λ lists. length (entries_of (items_of lists.items)) ≤ count) }
{
    let mut lists = Vec::new(alloc);
    for x in 0..count {
        if ring {
            lists.push(vec![in alloc; if x + 1 < count { x + 1 } else { 0 }]?)?;
        } else {
            lists.push(Vec::new(alloc))?;
        }
    }
    Ok(lists)
}

/// Of many nodes, the class of the last, and whether the first is at or below the last, the last the first, and the last itself.
fn ends(alloc: Global, ring: bool) -> Result<Option<(u32, [bool; 3])>, Fail> {
    let lists = many_nodes(alloc, 20_000, ring)?;
    let rows = Digraph::new(alloc, &lists)?.reach_rows(alloc)?;
    if rows.cells() != 20_000 {
        return Ok(None);
    }
    let below = [
        rows.below(0, 19_999),
        rows.below(19_999, 0),
        rows.below(19_999, 19_999),
    ];
    Ok(Some((rows.class_of(19_999), below)))
}

#[test]
fn one_class_of_many_nodes_takes_seconds(rt: HostRuntime) -> Result<(), Fail> {
    assert!(rt; ends(rt.alloc(), true)? == Some((0, [true, true, true])));
    Ok(())
}

#[test]
fn many_classes_take_seconds(rt: HostRuntime) -> Result<(), Fail> {
    assert!(rt; ends(rt.alloc(), false)? == Some((19_999, [false, false, true])));
    Ok(())
}

/// The class of the last of many nodes, without rows.
fn last_class(alloc: Global, ring: bool) -> Result<Option<u32>, Fail> {
    let lists = many_nodes(alloc, 20_000, ring)?;
    Ok(Digraph::new(alloc, &lists)?.classes(alloc)?.last().copied())
}

#[test]
fn classes_of_many_nodes_are_found_alone(rt: HostRuntime) -> Result<(), Fail> {
    assert!(rt; last_class(rt.alloc(), true)? == Some(0));
    assert!(rt; last_class(rt.alloc(), false)? == Some(19_999));
    Ok(())
}
