use conley_digraph::Digraph;
use conley_faces::Faces;
use conley_fixtures::lists_of;
use conley_mvf::Partition;
use conley_transitions::transitions;
use std::alloc::Global;
use std::test::Fail;

/// The transitions of two vertices and the edge between them, with this part.
fn transitions_of(alloc: Global, part: &[u32]) -> Result<Digraph, Fail> {
    let faces = Faces::new(alloc, &lists_of(alloc, &[&[], &[], &[0, 1]])?)?;
    let parts = lists_of(alloc, &[part])?;
    let partition = Partition::whole(alloc, &faces, &parts)?;
    Ok(transitions(alloc, &faces, &partition)?)
}

/// Whether the nodes are as many as the lists and have these heads.
fn leads(digraph: &Digraph, heads: &[&[u32]]) -> bool {
    if digraph.count() != heads.len() || heads.len() >= 100 {
        return false;
    }
    for node in 0..heads.len() {
        if digraph.heads(node as u32) != heads[node] {
            return false;
        }
    }
    true
}

#[test]
fn a_part_leads_round_its_cells(rt: HostRuntime) -> Result<(), Fail> {
    let digraph = transitions_of(rt.alloc(), &[2, 0, 1])?;
    assert!(rt; leads(&digraph, &[&[1], &[2], &[0, 1]]));
    Ok(())
}

#[test]
fn a_cell_leads_to_its_faces_and_round_its_part(rt: HostRuntime) -> Result<(), Fail> {
    // The first vertex with the edge, and the other vertex by itself.
    let digraph = transitions_of(rt.alloc(), &[0, 2])?;
    assert!(rt; leads(&digraph, &[&[2], &[], &[0, 1]]));
    assert!(rt; digraph.classes(rt.alloc())?.as_slice() == [0, 1, 0].as_slice());
    Ok(())
}
