//! Whole runs of `morse FILE`.

use crate::files::{
    CRITICAL_PART, DOUBLED, DOUBLED_PART, EDGE, EDGE_WITHOUT_PARTS, HANDLE, NO_CELLS, PATH,
    PLAIN_RING, REGULAR_PART, RING, TORUS, TRIANGLE, TWISTED_RING, TWO_WAYS, VERTEX,
};
use crate::large_files::points;
use crate::refusals::REFUSED;
use crate::running::{Row, cut_off, expect_printed, expect_refused, said_of_large};
use conley_outside::MemoryDepot;
use conley_tool::Outcome;
use std::test::Fail;

/// Problems, with the Morse sets that are printed.
const PRINTED: [Row; 16] = [
    (NO_CELLS, ""),
    (VERTEX, "set 0 index 1 cells v\n"),
    (REGULAR_PART, ""),
    (EDGE, "set 0 index 1 0 cells b\n"),
    (CRITICAL_PART, "set 0 index 1 0 cells a b ab\n"),
    (RING, "set 0 index 1 1 cells a b c ab bc ca\n"),
    (
        TRIANGLE,
        "set 0 index 1 1 0 cells a b c ab bc ca\nset 1 index 0 0 1 cells abc\norder 1 0\n",
    ),
    (TWISTED_RING, "set 0 index 0 0 cells a b e1 e2\n"),
    (PLAIN_RING, "set 0 index 1 1 cells a b e1 e2\n"),
    (
        PATH,
        "set 0 index 1 0 cells a\nset 1 index 1 0 cells c\nset 2 index 0 1 cells ab\norder 2 0\norder 2 1\n",
    ),
    (
        TWO_WAYS,
        "set 0 index 1 0 0 cells v\nset 1 index 0 1 0 cells e\nset 2 index 0 1 0 cells g\nset 3 index 0 0 1 cells f\n\
         order 1 0\norder 2 0\norder 3 1\norder 3 2\n",
    ),
    (
        DOUBLED,
        "set 0 index 1 0 0 cells v\nset 1 index 0 1 0 cells e\nset 2 index 0 0 1 cells f\norder 2 1\n",
    ),
    (
        EDGE_WITHOUT_PARTS,
        "set 0 index 1 0 cells a\nset 1 index 1 0 cells b\nset 2 index 0 1 cells ab\norder 2 0\norder 2 1\n",
    ),
    (
        HANDLE,
        "set 0 index 1 1 0 cells a b c ab bc ca\nset 1 index 0 1 0 cells e\nset 2 index 0 0 1 cells t\norder 1 0\norder 2 1\n",
    ),
    (DOUBLED_PART, "set 0 index 1 0 0 cells v\n"),
    (
        TORUS,
        "set 0 index 1 2 1 cells 0 1 2 3 4 5 6 0.1 0.2 0.3 0.4 0.5 0.6 1.2 1.3 1.4 1.5 1.6 2.3 2.4 2.5 2.6 3.4 3.5 3.6 4.5 4.6 5.6 \
         0.1.3 0.1.5 0.2.3 0.2.6 0.4.5 0.4.6 1.2.4 1.2.6 1.3.4 1.5.6 2.3.5 2.4.5 3.4.6 3.5.6\n",
    ),
];

#[test]
fn morse_sets_are_printed(rt: HostRuntime) -> Result<(), Fail> {
    Ok(expect_printed(&rt, rt.alloc(), "morse", &PRINTED)?)
}

#[test]
fn a_file_that_is_no_problem_has_no_morse_sets(rt: HostRuntime) -> Result<(), Fail> {
    Ok(expect_refused(&rt, rt.alloc(), "morse", &REFUSED)?)
}

#[test]
fn a_file_has_2_000_morse_sets(rt: HostRuntime) -> Result<(), Fail> {
    let said = said_of_large(rt.alloc(), "morse", &points(rt.alloc(), 2_000)?)?;
    assert!(rt; said.has_lines(2_000));
    Ok(())
}

#[test]
fn a_file_has_no_more_than_2_000_morse_sets(rt: HostRuntime) -> Result<(), Fail> {
    let said = said_of_large(rt.alloc(), "morse", &points(rt.alloc(), 2_001)?)?;
    assert!(rt; said.is(1, "", "refused E14 2001\n"));
    Ok(())
}

#[test]
fn faults_outside_are_told_of_morse_too(rt: HostRuntime) -> Result<(), Fail> {
    let mut depot = MemoryDepot::new(rt.alloc());
    depot.add("f", RING.as_bytes())?;
    let said = cut_off(rt.alloc(), &["morse", "f"], &mut depot, 1000)?;
    assert!(rt; said.outcome == Outcome::WriteFault && said.is(4, "set 0 inde", "write fault\n"));
    // There is no such file.
    let said = cut_off(rt.alloc(), &["morse", "g"], &mut depot, 1000)?;
    assert!(rt; said.outcome == Outcome::ReadFault && said.is(3, "", "read fault\n"));
    Ok(())
}
