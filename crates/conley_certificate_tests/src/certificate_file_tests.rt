//! Texts of certificates over an edge with its two ends.

use crate::complexes::edge;
use conley_certificate_file::{CertError, CertFault, Certificate};
use std::alloc::Global;
use std::test::Fail;

/// Whether what is written for a text that is read is the other text.
fn is_written(alloc: Global, labels: &[&str], read: &str, written: &str) -> Result<bool, Fail> {
    let complex = edge(alloc, labels)?;
    let certificate = Certificate::from_json(alloc, read.as_bytes(), &complex)?;
    Ok(certificate.to_json(alloc, &complex)?.as_slice() == written.as_bytes())
}

/// What is free, in another order, with blanks and a member more.
const FREE: &str =
    r#" {"version":1,"scalars":2,"more":null,"morse":[["a\""],["ab","b\\"]],"order":[[1,1],[1,0]],"index":[[0,7],[0,1]],"generators":[[9,255]],"matrix":[],"phi":[[2,0,1],[0,0,1]],"psi":[[0,1,1],[0,0,1]],"gamma":[],"gamma2":[[0,0,1]]} "#;

/// The same in order.
const ORDERED: &str =
    r#"{"gamma":[],"gamma2":[[0,0,1]],"generators":[[9,255]],"index":[[0,7],[0,1]],"matrix":[],"morse":[["a\""],["b\\","ab"]],"order":[[1,0],[1,1]],"phi":[[0,0,1],[2,0,1]],"psi":[[0,0,1],[0,1,1]],"scalars":2,"version":1}"#;

#[test]
fn what_is_free_is_written_in_order(rt: HostRuntime) -> Result<(), Fail> {
    let labels = ["a\"", "b\\", "ab"];
    assert!(rt; is_written(rt.alloc(), &labels, FREE, ORDERED)?);
    assert!(rt; is_written(rt.alloc(), &labels, ORDERED, ORDERED)?);
    Ok(())
}

/// The refusal of a text over the edge.
fn refusal(alloc: Global, text: &str) -> Result<Option<CertFault>, Fail> {
    let complex = edge(alloc, &["a", "b", "ab"])?;
    match Certificate::from_json(alloc, text.as_bytes(), &complex) {
        Ok(_) => Ok(None),
        Err(CertError::Bad(fault)) => Ok(Some(fault)),
        Err(CertError::NoMemory) => Err("no memory".into()),
    }
}

/// Texts with their first refusals.
const REFUSED: [(&str, CertFault); 4] = [
    (r#"{"gamma":[[2,0,1]],"gamma2":[],"#, CertFault::NotJson),
    (
        r#"{"version":2,"scalars":3,"morse":[],"order":[],"index":[],"generators":[[0,256]],"matrix":[],"phi":[],"psi":[],"gamma":[],"gamma2":[]}"#,
        CertFault::BadShape(6),
    ),
    (
        r#"{"version":1,"scalars":3,"morse":[[]],"order":[],"index":[],"generators":[],"matrix":[],"phi":[],"psi":[],"gamma":[],"gamma2":[]}"#,
        CertFault::Differs(2, 3),
    ),
    (
        r#"{"version":1,"scalars":2,"morse":[],"order":[],"index":[],"generators":[],"matrix":[],"phi":[],"psi":[],"gamma":[[2,0,1],[2,0,1],[0,0,257]],"gamma2":[]}"#,
        CertFault::BadPlace(10, 1),
    ),
];

#[test]
fn the_first_fault_is_told(rt: HostRuntime) -> Result<(), Fail> {
    for (text, fault) in &REFUSED {
        assert!(rt; refusal(rt.alloc(), text)? == Some(*fault));
    }
    Ok(())
}
