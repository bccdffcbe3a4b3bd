//! Certificates of an edge that is one part with one of its ends: the flow leads to the other end.

use crate::complexes::edge;
use conley_certificate::Reason;
use conley_checker::{CheckError, check_text};
use conley_fixtures::lists_of;
use conley_mvf::Partition;
use std::alloc::Global;
use std::test::Fail;

/// Why a text is rejected, if it is.
fn reason_of(alloc: Global, text: &str) -> Result<Option<Reason>, Fail> {
    let complex = edge(alloc, &["a", "b", "ab"])?;
    let parts = lists_of(alloc, &[&[0, 2]])?;
    let partition = Partition::whole(alloc, complex.faces(), &parts)?;
    match check_text(alloc, text.as_bytes(), &complex, &partition)? {
        Ok(()) => Ok(None),
        Err(CheckError::Rejected(reason)) => Ok(Some(reason)),
        Err(CheckError::NoMemory) => Err("no memory".into()),
    }
}

/// The analysis.
const ACCEPTED: &str =
    r#"{"version":1,"scalars":2,"morse":[["b"]],"order":[],"index":[[1,0]],"generators":[[0,0]],"matrix":[],"phi":[[1,0,1]],"psi":[[0,0,1],[0,1,1]],"gamma":[[2,0,1]],"gamma2":[]}"#;

/// The generator stands on the end that the flow leaves.
const UPWARD: &str =
    r#"{"version":1,"scalars":2,"morse":[["b"]],"order":[],"index":[[1,0]],"generators":[[0,0]],"matrix":[],"phi":[[0,0,1]],"psi":[[0,0,1],[0,1,1]],"gamma":[[2,0,1]],"gamma2":[]}"#;

#[test]
fn an_analysis_is_accepted(rt: HostRuntime) -> Result<(), Fail> {
    assert!(rt; reason_of(rt.alloc(), ACCEPTED)?.is_none());
    Ok(())
}

#[test]
fn a_generator_that_leads_upward_is_told(rt: HostRuntime) -> Result<(), Fail> {
    let told = Reason {
        law: 8,
        part: 0,
        row: 0,
        column: 0,
        have: 1,
        want: 0,
    };
    assert!(rt; reason_of(rt.alloc(), UPWARD)? == Some(told));
    Ok(())
}
