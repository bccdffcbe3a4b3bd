//! Whole runs of `classes FILE`, and of words without a form.

use crate::files::{DOUBLED, EDGE, HULL, INTERVAL, NO_CELLS, RING, SIGNED_EDGE, TRIANGLE};
use crate::large_files::{points, ring};
use crate::refusals::REFUSED;
use crate::running::{Row, cut_off, expect_printed, expect_refused, said_of, said_of_large};
use conley_outside::MemoryDepot;
use conley_tool::Outcome;
use std::test::Fail;

/// Problems, with the classes that are printed.
const PRINTED: [Row; 8] = [
    (NO_CELLS, ""),
    (EDGE, "a ab\nb\n"),
    (SIGNED_EDGE, "a ab\nb\n"),
    (RING, "a b c ab bc ca\n"),
    (TRIANGLE, "a b c ab bc ca\nabc\n"),
    (DOUBLED, "v\ne\nf\n"),
    (INTERVAL, "0\n1\n0+\n"),
    (HULL, "a ab ca abc\nb\nc\nbc\n"),
];

#[test]
fn classes_are_printed(rt: HostRuntime) -> Result<(), Fail> {
    Ok(expect_printed(&rt, rt.alloc(), "classes", &PRINTED)?)
}

#[test]
fn a_file_that_is_no_problem_has_no_classes(rt: HostRuntime) -> Result<(), Fail> {
    Ok(expect_refused(&rt, rt.alloc(), "classes", &REFUSED)?)
}

/// Words without a form.
const WORDS: [&[&str]; 9] = [
    &[],
    &["analyze"],
    &["classes"],
    &["classes", "f", "f"],
    &["field"],
    &["morse"],
    &["morse", "f", "f"],
    &["check", "f"],
    &["--help", "f"],
];

#[test]
fn words_without_a_form_are_usage(rt: HostRuntime) -> Result<(), Fail> {
    for texts in &WORDS {
        let said = said_of(rt.alloc(), texts, EDGE.as_bytes(), 100, 10)?;
        assert!(rt;
            said.outcome == Outcome::Usage
                && said.is(
                    2,
                    "",
                    "usage: conley classes FILE | field FILE | morse FILE | sets FILE | analyze FILE | check FILE CERT | trial K\n"
                )
        );
    }
    Ok(())
}

#[test]
fn a_put_that_fails_is_a_write_fault(rt: HostRuntime) -> Result<(), Fail> {
    let mut depot = MemoryDepot::new(rt.alloc());
    depot.add("f", RING.as_bytes())?;
    let said = cut_off(rt.alloc(), &["classes", "f"], &mut depot, 1000)?;
    assert!(rt; said.outcome == Outcome::WriteFault && said.is(4, "a b c ab b", "write fault\n"));
    Ok(())
}

#[test]
fn a_fetch_that_fails_is_a_read_fault(rt: HostRuntime) -> Result<(), Fail> {
    let mut depot = MemoryDepot::new(rt.alloc());
    depot.add("f", RING.as_bytes())?;
    depot.fail_at(0);
    // A fault of `err` changes no outcome.
    let said = cut_off(rt.alloc(), &["classes", "f"], &mut depot, 4)?;
    assert!(rt; said.outcome == Outcome::ReadFault && said.is(3, "", "read"));
    Ok(())
}

#[test]
fn a_file_that_is_not_there_is_a_read_fault(rt: HostRuntime) -> Result<(), Fail> {
    let mut depot = MemoryDepot::new(rt.alloc());
    let said = cut_off(rt.alloc(), &["classes", "g"], &mut depot, 1000)?;
    assert!(rt; said.outcome == Outcome::ReadFault && said.is(3, "", "read fault\n"));
    Ok(())
}

#[test]
fn a_file_has_at_most_64_mebibytes(rt: HostRuntime) -> Result<(), Fail> {
    let mut spaces = vec![in rt.alloc(); b' '; 67_108_864]?;
    for line in ["refused E1\n", "too long\n"] {
        let said = said_of(rt.alloc(), &["classes", "f"], &spaces, 100, 100)?;
        assert!(rt; said.is(1, "", line), "{line}");
        spaces.push(b' ')?;
    }
    Ok(())
}

#[test]
fn a_file_lists_20_000_cells(rt: HostRuntime) -> Result<(), Fail> {
    let said = said_of_large(rt.alloc(), "classes", &points(rt.alloc(), 20_000)?)?;
    assert!(rt; said.has_lines(20_000));
    Ok(())
}

#[test]
fn a_file_lists_no_more_than_20_000_cells(rt: HostRuntime) -> Result<(), Fail> {
    let said = said_of_large(rt.alloc(), "classes", &points(rt.alloc(), 20_001)?)?;
    assert!(rt; said.is(1, "", "refused E4 1 20001\n"));
    Ok(())
}

#[test]
fn a_ring_is_one_line(rt: HostRuntime) -> Result<(), Fail> {
    let said = said_of_large(rt.alloc(), "classes", &ring(rt.alloc(), 10_000)?)?;
    assert!(rt; said.has_lines(1) && said.count(b' ') == 19_999);
    Ok(())
}
