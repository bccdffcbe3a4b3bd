//! Whole runs of `analyze FILE`, and of `check` of what it printed.

use crate::check_runs::checked;
use crate::files::{
    CRITICAL_PART, DOUBLED, DOUBLED_PART, EDGE, EDGE_WITHOUT_PARTS, HANDLE, NO_CELLS, RING,
    SIGNED_EDGE, TORUS, TRIANGLE, TWISTED_RING,
};
use crate::refusals::REFUSED;
use crate::running::{Row, expect_refused, said_of};
use std::alloc::{AllocError, Global};
use std::process::Abort;
use std::test::Fail;

/// One vertex with the label a.
const VERTEX_A: &str =
    r#"{"version":1,"scalars":2,"complex":{"kind":"lefschetz","cells":[["a",0]],"incidences":[]},"field":{"kind":"whole","parts":[]}}"#;

/// Problems of which one text is due, worked out by hand.
const PRINTED: [Row; 8] = [
    // no cells
    (
        NO_CELLS,
        concat!(
            r#"{"gamma":[],"gamma2":[],"generators":[],"index":[],"matrix":[],"morse":[],"order":[],"phi":[],"psi":[],"scalars":2,"version":1}"#,
            "\n"
        ),
    ),
    // one vertex
    (
        VERTEX_A,
        concat!(
            r#"{"gamma":[],"gamma2":[],"generators":[[0,0]],"index":[[1]],"matrix":[],"morse":[["a"]],"order":[],"phi":[[0,0,1]],"psi":[[0,0,1]],"scalars":2,"version":1}"#,
            "\n"
        ),
    ),
    // a regular part, which is taken out as a pair
    (
        EDGE,
        concat!(
            r#"{"gamma":[[2,0,1]],"gamma2":[],"generators":[[0,0]],"index":[[1,0]],"matrix":[],"morse":[["b"]],"order":[],"phi":[[1,0,1]],"psi":[[0,0,1],[0,1,1]],"scalars":2,"version":1}"#,
            "\n"
        ),
    ),
    // the same with signs
    (
        SIGNED_EDGE,
        concat!(
            r#"{"gamma":[[2,0,2]],"gamma2":[],"generators":[[0,0]],"index":[[1,0]],"matrix":[],"morse":[["b"]],"order":[],"phi":[[1,0,1]],"psi":[[0,0,1],[0,1,1]],"scalars":3,"version":1}"#,
            "\n"
        ),
    ),
    // two covers, and nothing to take out
    (
        EDGE_WITHOUT_PARTS,
        concat!(
            r#"{"gamma":[],"gamma2":[],"generators":[[0,0],[1,0],[2,1]],"index":[[1,0],[1,0],[0,1]],"matrix":[[0,2,1],[1,2,1]],"morse":[["a"],["b"],["ab"]],"order":[[2,0],[2,1]],"phi":[[0,0,1],[1,1,1],[2,2,1]],"psi":[[0,0,1],[1,1,1],[2,2,1]],"scalars":2,"version":1}"#,
            "\n"
        ),
    ),
    // a set with index zero
    (
        TWISTED_RING,
        concat!(
            r#"{"gamma":[[2,0,1],[3,0,2],[2,1,2],[3,1,2]],"gamma2":[],"generators":[],"index":[[0,0]],"matrix":[],"morse":[["a","b","e1","e2"]],"order":[],"phi":[],"psi":[],"scalars":3,"version":1}"#,
            "\n"
        ),
    ),
    // an entry that isn't one
    (
        DOUBLED,
        concat!(
            r#"{"gamma":[],"gamma2":[],"generators":[[0,0],[1,1],[2,2]],"index":[[1,0,0],[0,1,0],[0,0,1]],"matrix":[[1,2,2]],"morse":[["v"],["e"],["f"]],"order":[[2,1]],"phi":[[0,0,1],[1,1,1],[2,2,1]],"psi":[[0,0,1],[1,1,1],[2,2,1]],"scalars":3,"version":1}"#,
            "\n"
        ),
    ),
    // a pair whose entry is two over five elements
    (
        DOUBLED_PART,
        concat!(
            r#"{"gamma":[[2,1,3]],"gamma2":[],"generators":[[0,0]],"index":[[1,0,0]],"matrix":[],"morse":[["v"]],"order":[],"phi":[[0,0,1]],"psi":[[0,0,1]],"scalars":5,"version":1}"#,
            "\n"
        ),
    ),
];

/// Problems with parts of the text that every analysis has.
const HAVE: [(&str, &[&str]); 4] = [
    (
        RING,
        &[
            r#""generators":[[0,0],[0,1]],"index":[[1,1]],"matrix":[],"morse":[["a","b","c","ab","bc","ca"]],"order":[]"#,
        ],
    ),
    (
        TRIANGLE,
        &[
            r#""generators":[[0,0],[0,1],[1,2]],"index":[[1,1,0],[0,0,1]],"matrix":[[1,2,1]],"morse":[["a","b","c","ab","bc","ca"],["abc"]],"order":[[1,0]]"#,
        ],
    ),
    (
        CRITICAL_PART,
        &[r#""generators":[[0,0]],"index":[[1,0]],"matrix":[]"#],
    ),
    (
        TORUS,
        &[r#""generators":[[0,0],[0,1],[0,1],[0,2]],"index":[[1,2,1]],"matrix":[]"#],
    ),
];

/// Whether a text has a part.
fn has(text: &[u8], part: &[u8]) -> bool {
    (0..text.len()).any(|k| text[k..].starts_with(part))
}

/// That `check` accepts what `analyze` printed for a file, which has these parts.
fn expect_accepted<R: Abort>(
    rt: &R,
    alloc: Global,
    file: &str,
    parts: &[&str],
) -> Result<(), AllocError> {
    let printed = said_of(alloc, &["analyze", "f"], file.as_bytes(), 10_000, 1000)?;
    assert!(rt; printed.outcome.status() == 0);
    for part in parts {
        assert!(rt; has(printed.out.written(), part.as_bytes()), "{part}");
    }
    let said = checked(alloc, file.as_bytes(), printed.out.written())?;
    assert!(rt; said.is(0, "accepted\n", ""), "{file}");
    Ok(())
}

#[test]
fn analyses_are_printed(rt: HostRuntime) -> Result<(), Fail> {
    for (file, text) in &PRINTED {
        let said = said_of(rt.alloc(), &["analyze", "f"], file.as_bytes(), 1000, 100)?;
        assert!(rt; said.is(0, text, ""), "{file}");
    }
    Ok(())
}

#[test]
fn what_is_printed_is_accepted(rt: HostRuntime) -> Result<(), Fail> {
    for (file, _) in &PRINTED {
        expect_accepted(&rt, rt.alloc(), file, &[])?;
    }
    for (file, parts) in &HAVE {
        expect_accepted(&rt, rt.alloc(), file, parts)?;
    }
    Ok(expect_accepted(&rt, rt.alloc(), HANDLE, &[])?)
}

#[test]
fn a_file_that_is_no_problem_has_no_analysis(rt: HostRuntime) -> Result<(), Fail> {
    Ok(expect_refused(&rt, rt.alloc(), "analyze", &REFUSED)?)
}
