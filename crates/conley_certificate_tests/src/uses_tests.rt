use conley_fixtures::{lists_of, triangle};
use conley_mvf::Partition;
use conley_uses::checked_analysis;
use std::alloc::Global;
use std::test::Fail;

/// The generators of a triangle whose vertices and edges are parts by twos, from an analysis that was checked.
fn checked_generators(alloc: Global) -> Result<Vec<(u32, u8)>, Fail> {
    let complex = triangle(alloc)?;
    let lists = lists_of(alloc, &[&[0, 3], &[1, 4], &[2, 5]])?;
    let partition = Partition::whole(alloc, complex.faces(), &lists)?;
    Ok(checked_analysis(alloc, &complex, &partition)?.generators)
}

#[test]
fn an_analysis_of_a_triangle_is_checked(rt: HostRuntime) -> Result<(), Fail> {
    let generators = checked_generators(rt.alloc())?;
    assert!(rt; generators.as_slice() == [(0u32, 0u8), (0, 1), (1, 2)].as_slice());
    Ok(())
}
