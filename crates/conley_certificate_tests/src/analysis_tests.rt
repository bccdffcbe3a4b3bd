use crate::complexes::listed;
use crate::matrices::{Entries, keeps};
use conley_analysis::{analysis_text, analyze};
use conley_certificate_file::Certificate;
use conley_field::PrimeField;
use conley_fixtures::lists_of;
use conley_lefschetz::Complex;
use conley_mvf::Partition;
use std::alloc::Global;
use std::test::Fail;

/// A complex of a listing, with parts.
struct Problem {
    field: PrimeField,
    dims: &'static [u8],
    incidences: Entries<'static>,
    parts: &'static [&'static [u32]],
}

/// What an analysis keeps: how many Morse sets, the generators, the matrix, and the maps and the homotopy of the file's complex.
/// The homotopy of the small complex is zero.
struct Kept {
    sets: usize,
    generators: &'static [(u32, u8)],
    matrix: Entries<'static>,
    phi: Entries<'static>,
    psi: Entries<'static>,
    gamma: Entries<'static>,
}

/// An edge with the incidences -1 and 1 over three elements, and its vertices; the first of these and the edge are one part.
const EDGE: Problem = Problem {
    field: PrimeField::Three,
    dims: &[0, 0, 1],
    incidences: &[(2, 0, 2), (2, 1, 1)],
    parts: &[&[0, 2]],
};

/// The identity on three generators.
const THREE: Entries<'static> = &[(0, 0, 1), (1, 1, 1), (2, 2, 1)];

/// Problems, and what their one analysis keeps.
const ANALYSES: [(&str, &Problem, Kept); 4] = [
    (
        "a regular part is taken out",
        &EDGE,
        Kept {
            sets: 1,
            generators: &[(0, 0)],
            matrix: &[],
            phi: &[(1, 0, 1)],
            psi: &[(0, 0, 1), (0, 1, 1)],
            gamma: &[(2, 0, 2)],
        },
    ),
    (
        "no cells have no generators",
        &Problem {
            field: PrimeField::Two,
            dims: &[],
            incidences: &[],
            parts: &[],
        },
        Kept {
            sets: 0,
            generators: &[],
            matrix: &[],
            phi: &[],
            psi: &[],
            gamma: &[],
        },
    ),
    (
        "an edge without parts is kept whole",
        &Problem {
            field: PrimeField::Two,
            dims: &[0, 0, 1],
            incidences: &[(2, 0, 1), (2, 1, 1)],
            parts: &[],
        },
        Kept {
            sets: 3,
            generators: &[(0, 0), (1, 0), (2, 1)],
            matrix: &[(0, 2, 1), (1, 2, 1)],
            phi: THREE,
            psi: THREE,
            gamma: &[],
        },
    ),
    // two edges over the same two vertices, which differ in a sign
    (
        "a set with zero index has no generator",
        &Problem {
            field: PrimeField::Three,
            dims: &[0, 0, 1, 1],
            incidences: &[(2, 0, 2), (2, 1, 1), (3, 0, 1), (3, 1, 1)],
            parts: &[&[0, 2], &[1, 3]],
        },
        Kept {
            sets: 1,
            generators: &[],
            matrix: &[],
            phi: &[],
            psi: &[],
            gamma: &[(2, 0, 1), (3, 0, 2), (2, 1, 2), (3, 1, 2)],
        },
    ),
];

/// The partition of a complex into these parts, analysed.
fn certificate(
    alloc: Global,
    complex: &Complex<PrimeField>,
    parts: &[&[u32]],
) -> Result<Certificate, Fail> {
    let lists = lists_of(alloc, parts)?;
    let partition = Partition::whole(alloc, complex.faces(), &lists)?;
    Ok(analyze(alloc, complex, &partition)?)
}

/// The certificate of a problem.
fn analysed(alloc: Global, problem: &Problem) -> Result<Certificate, Fail> {
    let complex = listed(alloc, problem.field, problem.dims, problem.incidences)?;
    certificate(alloc, &complex, problem.parts)
}

/// Whether a certificate keeps this and no more.
fn keeps_all(certificate: &Certificate, kept: &Kept) -> bool {
    certificate.morse.len() == kept.sets
        && certificate.generators.as_slice() == kept.generators
        && keeps(&certificate.matrix, kept.matrix)
        && keeps(&certificate.phi, kept.phi)
        && keeps(&certificate.psi, kept.psi)
        && keeps(&certificate.gamma, kept.gamma)
        && keeps(&certificate.gamma2, &[])
}

/// Whether the analysis of a problem keeps this.
fn is_analysed(alloc: Global, problem: &Problem, kept: &Kept) -> Result<bool, Fail> {
    let certificate = analysed(alloc, problem)?;
    Ok(keeps_all(&certificate, kept))
}

#[test]
fn analyses_keep_what_was_worked_out(rt: HostRuntime) -> Result<(), Fail> {
    for (what, problem, kept) in &ANALYSES {
        assert!(rt; is_analysed(rt.alloc(), problem, kept)?, "{what}");
    }
    Ok(())
}

/// A triangle, its edges and its vertices, these by twos in a part.
const TRIANGLE: Problem = Problem {
    field: PrimeField::Two,
    dims: &[0, 0, 0, 1, 1, 1, 2],
    incidences: &[
        (3, 0, 1),
        (3, 1, 1),
        (4, 1, 1),
        (4, 2, 1),
        (5, 2, 1),
        (5, 0, 1),
        (6, 3, 1),
        (6, 4, 1),
        (6, 5, 1),
    ],
    parts: &[&[0, 3], &[1, 4], &[2, 5]],
};

/// Whether the triangle stands above the circle round it, and an entry leads there.
fn leads_to_its_circle(alloc: Global) -> Result<bool, Fail> {
    let certificate = analysed(alloc, &TRIANGLE)?;
    Ok(
        certificate.order.as_slice() == [(1, 0)].as_slice()
            && certificate.generators.as_slice() == [(0, 0), (0, 1), (1, 2)].as_slice()
            && keeps(&certificate.matrix, &[(1, 2, 1)]),
    )
}

#[test]
fn an_entry_leads_from_a_triangle_to_the_circle_round_it(rt: HostRuntime) -> Result<(), Fail> {
    assert!(rt; leads_to_its_circle(rt.alloc())?);
    Ok(())
}

/// The text of the analysis of the edge.
fn edge_text(alloc: Global) -> Result<Vec<u8>, Fail> {
    let edge = &EDGE;
    let complex = listed(alloc, edge.field, edge.dims, edge.incidences)?;
    let lists = lists_of(alloc, edge.parts)?;
    let partition = Partition::whole(alloc, complex.faces(), &lists)?;
    Ok(analysis_text(alloc, &complex, &partition)?)
}

const TEXT: &str =
    r#"{"gamma":[[2,0,2]],"gamma2":[],"generators":[[0,0]],"index":[[1,0]],"matrix":[],"morse":[["b"]],"order":[],"phi":[[1,0,1]],"psi":[[0,0,1],[0,1,1]],"scalars":3,"version":1}"#;

#[test]
fn the_text_of_an_analysis(rt: HostRuntime) -> Result<(), Fail> {
    let text = edge_text(rt.alloc())?;
    assert!(rt; text.as_slice() == TEXT.as_bytes());
    Ok(())
}
