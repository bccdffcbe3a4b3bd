use crate::complexes::listed;
use crate::matrices::{Entries, keeps};
use conley_analysis::over_reach;
use conley_equivalence::{Equivalence, compose, identity, of_pair};
use conley_field::PrimeField;
use conley_fixtures::lists_of;
use conley_morse::morse;
use conley_mvf::Partition;
use std::alloc::Global;
use std::test::Fail;

/// Whether two maps and the homotopy of the larger complex keep these entries, and that of the smaller one none.
fn keep(maps: &Equivalence, phi: Entries, psi: Entries, gamma: Entries) -> bool {
    keeps(&maps.phi, phi)
        && keeps(&maps.psi, psi)
        && keeps(&maps.gamma, gamma)
        && keeps(&maps.gamma2, &[])
}

/// The entries of the identity on three generators.
const THREE: [(u32, u32, u8); 3] = [(0, 0, 1), (1, 1, 1), (2, 2, 1)];

/// Whether the identity on three generators after itself is the identity.
fn twice_is_once(alloc: Global) -> Result<bool, Fail> {
    let one = identity(alloc, &PrimeField::Five, 3)?;
    let maps = compose(alloc, &PrimeField::Five, &one, &one)?;
    Ok(keep(&maps, &THREE, &THREE, &[]))
}

#[test]
fn the_identity_twice_is_the_identity(rt: HostRuntime) -> Result<(), Fail> {
    assert!(rt; twice_is_once(rt.alloc())?);
    Ok(())
}

/// Whether of an edge with incidences -1 and 1, where its first vertex and the edge are one part, these two are the first pair, and
/// the maps without it are those worked out by hand, and the boundary comes out as given.
fn is_taken_out(alloc: Global) -> Result<bool, Fail> {
    let complex = listed(
        alloc,
        PrimeField::Three,
        &[0, 0, 1],
        &[(2, 0, 2), (2, 1, 1)],
    )?;
    let lists = lists_of(alloc, &[&[0, 2]])?;
    let _cells = complex.faces().count();
    let partition = Partition::whole(alloc, complex.faces(), &lists)?;
    let found = morse(alloc, &complex, &partition)?;
    let graded = over_reach(alloc, &complex, &found.grading)?;
    match graded.first_inside() {
        Some(pair) => {
            let maps = of_pair(alloc, &graded, pair.0, pair.1)?.1;
            let by_hand = keep(&maps, &[(1, 0, 1)], &[(0, 0, 1), (0, 1, 1)], &[(2, 0, 2)]);
            let given = keeps(&graded.into_matrix(), &[(0, 2, 2), (1, 2, 1)]);
            Ok(pair == (2, 0) && by_hand && given)
        }
        None => Ok(false),
    }
}

#[test]
fn a_vertex_and_its_edge_are_taken_out(rt: HostRuntime) -> Result<(), Fail> {
    assert!(rt; is_taken_out(rt.alloc())?);
    Ok(())
}
