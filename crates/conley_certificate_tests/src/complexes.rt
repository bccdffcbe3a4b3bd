//! Small complexes of a listing.

use crate::matrices::Entries;
use conley_field::PrimeField;
use conley_fixtures::{complex_of, labels_of};
use conley_lefschetz::Complex;
use std::alloc::Global;
use std::test::Fail;

const LABELS: [&str; 7] = ["a", "b", "c", "d", "e", "f", "g"];

/// The complex with these dimensions and incidences, each two cells and a code.
pub(crate) fn listed(
    alloc: Global,
    field: PrimeField,
    dims: &[u8],
    incidences: Entries,
) -> Result<Complex<PrimeField>, Fail> {
    if dims.len() > 7 {
        return Err("too many cells".into());
    }
    let labels = labels_of(alloc, &LABELS[..dims.len()])?;
    let dims = Vec::from_slice(alloc, dims)?;
    Ok(complex_of(alloc, field, labels, dims, incidences)??)
}

/// An edge with its two ends over two elements, with the labels of the ends and of the edge.
pub(crate) fn edge(alloc: Global, texts: &[&str]) -> Result<Complex<PrimeField>, Fail> {
    let labels = labels_of(alloc, texts)?;
    let dims = Vec::from_slice(alloc, &[0, 0, 1])?;
    let triples = [(2, 0, 1), (2, 1, 1)];
    Ok(complex_of(alloc, PrimeField::Two, labels, dims, &triples)??)
}
