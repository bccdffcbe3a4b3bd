//! Whole runs of `check FILE CERT`.

use crate::files::{CRITICAL_PART, EDGE, HALF_DISC, HANDLE, TRIANGLE, TWISTED_RING};
use crate::running::{Answer, said};
use conley_outside::MemoryDepot;
use conley_tool::Outcome;
use std::alloc::{AllocError, Global};
use std::process::Abort;
use std::test::Fail;

/// A file, a certificate, and what `check` tells of them: nothing where the certificate is accepted, else the line and the status.
type Row = (&'static str, &'static str, &'static str, u8);

/// Analyses.
const ACCEPTED: [Row; 8] = [
    // the one set of an edge that flows to its end b
    (
        EDGE,
        r#"{"gamma":[[2,0,1]],"gamma2":[],"generators":[[0,0]],"index":[[1,0]],"matrix":[],"morse":[["b"]],"order":[],"phi":[[1,0,1]],"psi":[[0,0,1],[0,1,1]],"scalars":2,"version":1}"#,
        "",
        0,
    ),
    // a whole edge in one part: the first choice of phi and gamma
    (
        CRITICAL_PART,
        r#"{"gamma":[[2,1,1]],"gamma2":[],"generators":[[0,0]],"index":[[1,0]],"matrix":[],"morse":[["a","b","ab"]],"order":[],"phi":[[0,0,1]],"psi":[[0,0,1],[0,1,1]],"scalars":2,"version":1}"#,
        "",
        0,
    ),
    // the same edge: the second choice
    (
        CRITICAL_PART,
        r#"{"gamma":[[2,0,1]],"gamma2":[],"generators":[[0,0]],"index":[[1,0]],"matrix":[],"morse":[["a","b","ab"]],"order":[],"phi":[[1,0,1]],"psi":[[0,0,1],[0,1,1]],"scalars":2,"version":1}"#,
        "",
        0,
    ),
    // a Morse set with index zero, over three elements
    (
        TWISTED_RING,
        r#"{"gamma":[[2,0,1],[3,0,2],[2,1,2],[3,1,2]],"gamma2":[],"generators":[],"index":[[0,0]],"matrix":[],"morse":[["a","b","e1","e2"]],"order":[],"phi":[],"psi":[],"scalars":3,"version":1}"#,
        "",
        0,
    ),
    // a ring with an edge and a disc more: certificate A
    (
        HANDLE,
        r#"{"gamma":[[3,1,1],[5,2,1]],"gamma2":[],"generators":[[0,0],[0,1],[1,1],[2,2]],"index":[[1,1,0],[0,1,0],[0,0,1]],"matrix":[[2,3,1]],"morse":[["a","b","c","ab","bc","ca"],["e"],["t"]],"order":[[1,0],[2,1]],"phi":[[0,0,1],[3,1,1],[4,1,1],[5,1,1],[3,2,1],[6,2,1],[7,3,1]],"psi":[[0,0,1],[0,1,1],[0,2,1],[1,4,1],[2,6,1],[3,7,1]],"scalars":2,"version":1}"#,
        "",
        0,
    ),
    // certificate B, with another matrix
    (
        HANDLE,
        r#"{"gamma":[[4,1,1],[5,1,1],[5,2,1]],"gamma2":[],"generators":[[0,0],[0,1],[1,1],[2,2]],"index":[[1,1,0],[0,1,0],[0,0,1]],"matrix":[[1,3,1],[2,3,1]],"morse":[["a","b","c","ab","bc","ca"],["e"],["t"]],"order":[[1,0],[2,1]],"phi":[[0,0,1],[3,1,1],[4,1,1],[5,1,1],[4,2,1],[5,2,1],[6,2,1],[7,3,1]],"psi":[[0,0,1],[0,1,1],[0,2,1],[1,3,1],[2,6,1],[3,7,1]],"scalars":2,"version":1}"#,
        "",
        0,
    ),
    // a ring filled by a disc
    (
        TRIANGLE,
        r#"{"gamma":[[3,1,1],[5,2,1]],"gamma2":[],"generators":[[0,0],[0,1],[1,2]],"index":[[1,1,0],[0,0,1]],"matrix":[[1,2,1]],"morse":[["a","b","c","ab","bc","ca"],["abc"]],"order":[[1,0]],"phi":[[0,0,1],[3,1,1],[4,1,1],[5,1,1],[6,2,1]],"psi":[[0,0,1],[0,1,1],[0,2,1],[1,4,1],[2,6,1]],"scalars":2,"version":1}"#,
        "",
        0,
    ),
    // the identity up to a homotopy on the generators
    (
        HALF_DISC,
        r#"{"gamma":[[2,1,1]],"gamma2":[[2,1,1]],"generators":[[0,1],[1,1],[1,2]],"index":[[0,1,0],[0,1,1]],"matrix":[[0,2,1]],"morse":[["f"],["g","h"]],"order":[[1,0]],"phi":[[0,0,1],[1,1,1],[2,2,1]],"psi":[[0,0,1],[0,1,1],[1,1,1],[2,2,1]],"scalars":2,"version":1}"#,
        "",
        0,
    ),
];

/// Certificates that are no analysis, with the first law that fails.
const REJECTED: [Row; 6] = [
    // the set with index zero is left out
    (
        TWISTED_RING,
        r#"{"gamma":[[2,0,1],[3,0,2],[2,1,2],[3,1,2]],"gamma2":[],"generators":[],"index":[],"matrix":[],"morse":[],"order":[],"phi":[],"psi":[],"scalars":3,"version":1}"#,
        "rejected J1 0 0 0 0 1\n",
        6,
    ),
    // gamma of A leads up from a vertex to the further edge
    (
        HANDLE,
        r#"{"gamma":[[6,1,1],[5,2,1]],"gamma2":[],"generators":[[0,0],[0,1],[1,1],[2,2]],"index":[[1,1,0],[0,1,0],[0,0,1]],"matrix":[[2,3,1]],"morse":[["a","b","c","ab","bc","ca"],["e"],["t"]],"order":[[1,0],[2,1]],"phi":[[0,0,1],[3,1,1],[4,1,1],[5,1,1],[3,2,1],[6,2,1],[7,3,1]],"psi":[[0,0,1],[0,1,1],[0,2,1],[1,4,1],[2,6,1],[3,7,1]],"scalars":2,"version":1}"#,
        "rejected J10 0 6 1 1 0\n",
        6,
    ),
    // the same without the entry of the matrix
    (
        TRIANGLE,
        r#"{"gamma":[[3,1,1],[5,2,1]],"gamma2":[],"generators":[[0,0],[0,1],[1,2]],"index":[[1,1,0],[0,0,1]],"matrix":[],"morse":[["a","b","c","ab","bc","ca"],["abc"]],"order":[[1,0]],"phi":[[0,0,1],[3,1,1],[4,1,1],[5,1,1],[6,2,1]],"psi":[[0,0,1],[0,1,1],[0,2,1],[1,4,1],[2,6,1]],"scalars":2,"version":1}"#,
        "rejected J12 0 3 2 1 0\n",
        6,
    ),
    // the index is zero and a generator is there
    (
        EDGE,
        r#"{"gamma":[[2,0,1]],"gamma2":[],"generators":[[0,0]],"index":[[0,0]],"matrix":[],"morse":[["b"]],"order":[],"phi":[[1,0,1]],"psi":[[0,0,1],[0,1,1]],"scalars":2,"version":1}"#,
        "rejected J4 0 0 0 0 1\n",
        6,
    ),
    // the regular part is listed as a set
    (
        EDGE,
        r#"{"gamma":[[2,0,1]],"gamma2":[],"generators":[[1,0]],"index":[[0,0],[1,0]],"matrix":[],"morse":[["a","ab"],["b"]],"order":[[0,1]],"phi":[[1,0,1]],"psi":[[0,0,1],[0,1,1]],"scalars":2,"version":1}"#,
        "rejected J4 0 0 2 0 1\n",
        6,
    ),
    // the same without gamma2
    (
        HALF_DISC,
        r#"{"gamma":[[2,1,1]],"gamma2":[],"generators":[[0,1],[1,1],[1,2]],"index":[[0,1,0],[0,1,1]],"matrix":[[0,2,1]],"morse":[["f"],["g","h"]],"order":[[1,0]],"phi":[[0,0,1],[1,1,1],[2,2,1]],"psi":[[0,0,1],[0,1,1],[1,1,1],[2,2,1]],"scalars":2,"version":1}"#,
        "rejected J15 0 0 1 1 0\n",
        6,
    ),
];

/// Texts that stand for no certificate.
const REFUSED: [Row; 6] = [
    // other scalars
    (
        EDGE,
        r#"{"gamma":[[2,0,1]],"gamma2":[],"generators":[[0,0]],"index":[[1,0]],"matrix":[],"morse":[["b"]],"order":[],"phi":[[1,0,1]],"psi":[[0,0,1],[0,1,1]],"scalars":3,"version":1}"#,
        "refused C3 2 3\n",
        1,
    ),
    // no psi
    (
        EDGE,
        r#"{"gamma":[[2,0,1]],"gamma2":[],"generators":[[0,0]],"index":[[1,0]],"matrix":[],"morse":[["b"]],"order":[],"phi":[[1,0,1]],"scalars":2,"version":1}"#,
        "refused C2 9\n",
        1,
    ),
    // an entry zero
    (
        EDGE,
        r#"{"gamma":[[2,0,1]],"gamma2":[],"generators":[[0,0]],"index":[[1,0]],"matrix":[],"morse":[["b"]],"order":[],"phi":[[1,0,0]],"psi":[[0,0,1],[0,1,1]],"scalars":2,"version":1}"#,
        "refused C4 8 0\n",
        1,
    ),
    // a label of no cell
    (
        EDGE,
        r#"{"gamma":[[2,0,1]],"gamma2":[],"generators":[[0,0]],"index":[[1,0]],"matrix":[],"morse":[["zz"]],"order":[],"phi":[[1,0,1]],"psi":[[0,0,1],[0,1,1]],"scalars":2,"version":1}"#,
        "refused C4 3 0\n",
        1,
    ),
    // an empty set
    (
        EDGE,
        r#"{"gamma":[[2,0,1]],"gamma2":[],"generators":[[0,0]],"index":[[1,0]],"matrix":[],"morse":[[]],"order":[],"phi":[[1,0,1]],"psi":[[0,0,1],[0,1,1]],"scalars":2,"version":1}"#,
        "refused C4 3 0\n",
        1,
    ),
    // the certificate is cut after 50 bytes
    (
        EDGE,
        r#"{"gamma":[[2,0,1]],"gamma2":[],"generators":[[0,0]"#,
        "refused C1\n",
        1,
    ),
];

/// What `check` says of a file and a certificate.
pub(crate) fn checked(
    alloc: Global,
    file: &[u8],
    certificate: &[u8],
) -> Result<Answer, AllocError> {
    let mut depot = MemoryDepot::new(alloc);
    depot.add("f", file)?;
    depot.add("c", certificate)?;
    said(alloc, &["check", "f", "c"], &mut depot, 100, 4)
}

/// That each certificate is told of as its row says.
fn expect_told<R: Abort>(rt: &R, alloc: Global, rows: &[Row]) -> Result<(), AllocError> {
    for (file, certificate, line, status) in rows {
        let said = checked(alloc, file.as_bytes(), certificate.as_bytes())?;
        let text = if *status == 0 { "accepted\n" } else { "" };
        assert!(rt; said.is(*status, text, line), "{certificate}");
    }
    Ok(())
}

#[test]
fn analyses_are_accepted(rt: HostRuntime) -> Result<(), Fail> {
    Ok(expect_told(&rt, rt.alloc(), &ACCEPTED)?)
}

#[test]
fn what_is_no_analysis_is_rejected(rt: HostRuntime) -> Result<(), Fail> {
    Ok(expect_told(&rt, rt.alloc(), &REJECTED)?)
}

#[test]
fn what_is_no_certificate_is_refused(rt: HostRuntime) -> Result<(), Fail> {
    Ok(expect_told(&rt, rt.alloc(), &REFUSED)?)
}

#[test]
fn a_certificate_that_is_not_there_is_a_read_fault(rt: HostRuntime) -> Result<(), Fail> {
    let mut depot = MemoryDepot::new(rt.alloc());
    depot.add("f", EDGE.as_bytes())?;
    let said = said(rt.alloc(), &["check", "f", "c"], &mut depot, 100, 4)?;
    assert!(rt; said.outcome == Outcome::ReadFault && said.is(3, "", "read fault\n"));
    Ok(())
}
