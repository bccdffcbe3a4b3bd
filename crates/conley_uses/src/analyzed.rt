//! An analysis that is checked before it is handed on.

ghost use Rattle.std.specs.Prelude.{◌≡◌, ℕ, Err, IfOk};
ghost use Rattle.conley_mvf.specs.Partition.{IsMultivectorField};
ghost use Rattle.conley_graph.specs.Decomposition.{HasTooManySets};
ghost use Rattle.conley_certificate_file.specs.CertificateMeaning.{meaning_of};
ghost use Rattle.conley_certificate.specs.Problem.{problem_of};
ghost use Rattle.conley_certificate.specs.Analysis.{IsAnalysis};

use conley_analysis::analyze;
use conley_certificate_file::Certificate;
use conley_checker::{CheckError, check};
use conley_field::Field;
use conley_lefschetz::Complex;
use conley_morse::MorseError;
use conley_mvf::Partition;
use std::alloc::Global;

/// Analyses a problem and checks what comes of it. The check never rejects it, over any field: that arm is proved not to be reached.
pub fn checked_analysis<F: Field>(
    alloc: Global,
    complex: &Complex<F>,
    partition: &Partition,
) -> Result<Certificate, MorseError>
    requires { IsMultivectorField complex.now.1.faces partition.now }
    ensures analysis { IfOk result (λ c. IsAnalysis (problem_of (F.arithmetic complex.now.0) complex.now.1 partition.now) (meaning_of c)) }
    ensures too_many { (n : ℕ) → result ≡ Err (MorseError.TooManyMorse n) → HasTooManySets (F.arithmetic complex.now.0) complex.now.1 partition.now n }
{
    let certificate = analyze(alloc, complex, partition)?;
    match check(alloc, complex, partition, &certificate) {
        Ok(()) => Ok(certificate),
        Err(CheckError::NoMemory) => Err(MorseError::NoMemory),
        Err(CheckError::Rejected(_)) => unreachable!(),
    }
}
