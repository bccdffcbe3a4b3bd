//! The certificate of a multivector field.

ghost use Rattle.std.specs.Prelude.{◌≡◌, ◌≤◌, ℕ, List, Err, IfOk, length};
ghost use Rattle.conley_lists.specs.Lists.{items_of};
ghost use Rattle.conley_mvf.specs.Partition.{IsMultivectorField};
ghost use Rattle.conley_graph.specs.Decomposition.{IsConleyMorseGraph, HasTooManySets};
ghost use Rattle.conley_certificate.specs.Problem.{problem_of};
ghost use Rattle.conley_certificate_file.specs.Certificate.{Fits};
ghost use Rattle.conley_certificate_file.specs.CertificateMeaning.{meaning_of};
ghost use Rattle.conley_certificate.specs.Analysis.{IsAnalysis};
ghost use Rattle.conley_certificate.specs.Reduced.{KeepsCells};

use crate::graded_cells::over_reach;
use crate::naming::named;
use conley_certificate_file::Certificate;
use conley_equivalence::Equivalence;
use conley_field::Field;
use conley_lefschetz::Complex;
use conley_morse::{Decomposition, MorseError, morse};
use conley_mvf::Partition;
use conley_reduction::{Reduced, reduce};
use std::alloc::Global;

/// The certificate of the multivector field on the complex: its Conley-Morse graph, and a connection matrix with maps and
/// homotopies. The generators stand in the order of the cells that the reduction keeps. `TooManyMorse` says how many Morse sets
/// there are, more than 2,000.
pub fn analyze<F: Field>(
    alloc: Global,
    complex: &Complex<F>,
    partition: &Partition,
) -> Result<Certificate, MorseError>
    requires { IsMultivectorField complex.now.1.faces partition.now }
    ensures analysis { IfOk result (λ c. IsAnalysis (problem_of (F.arithmetic complex.now.0) complex.now.1 partition.now) (meaning_of c)) }
    ensures fits { IfOk result (λ c. Fits (F.arithmetic complex.now.0) complex.now.1 (meaning_of c)) }
    ensures graph { IfOk result (λ c. IsConleyMorseGraph (F.arithmetic complex.now.0) complex.now.1 partition.now (meaning_of c).morse (meaning_of c).index
        (meaning_of c).order) }
    ensures few { IfOk result (λ c. length c.morse.items ≤ 2000) }
    ensures cells { IfOk result (λ c. (cells : List ℕ) × KeepsCells (problem_of (F.arithmetic complex.now.0) complex.now.1 partition.now) (meaning_of c)
        cells) }
    ensures too_many { (n : ℕ) → result ≡ Err (MorseError.TooManyMorse n) → HasTooManySets (F.arithmetic complex.now.0) complex.now.1 partition.now n }
{
    let Decomposition {
        sets,
        numbers,
        order,
        grading,
    } = morse(alloc, complex, partition)?;
    let _cells = complex.faces().count();
    let graded = over_reach(alloc, complex, &grading)?;
    let Reduced {
        complex: small,
        equivalence,
    } = reduce(alloc, &graded)?;
    let _filtered = small.count();
    let generators = named(alloc, complex.count(), &sets, &small)?;
    let matrix = small.into_matrix();
    let Equivalence {
        phi,
        psi,
        gamma,
        gamma2,
    } = equivalence;
    Ok(Certificate {
        morse: sets,
        order,
        index: numbers,
        generators,
        matrix,
        phi,
        psi,
        gamma,
        gamma2,
    })
}
