//! Where each cell stands in the sets.

ghost use Rattle.std.specs.Prelude.{◌≡◌, ◌<◌, ◌+◌, ℕ, All, Contains, IfOk, length, slice_index};
ghost use Rattle.conley_certificate.specs.Problem.{problem_of};
ghost use Rattle.conley_certificate_file.specs.CertificateMeaning.{meaning_of};
ghost use Rattle.conley_checker.specs.Given.{AreGiven, ArePlaces};

use conley_certificate_file::Certificate;
use conley_chains::NoMemory;
use conley_field::Field;
use conley_lefschetz::Complex;
use conley_lists::put_at;
use conley_mvf::Partition;
use std::alloc::Global;

/// For each cell 1 plus the number of its set, or 0.
pub(crate) fn places_of<F: Field>(
    alloc: Global,
    complex: &Complex<F>,
    partition: &Partition,
    certificate: &Certificate,
) -> Result<Vec<u32>, NoMemory>
    requires given { AreGiven (problem_of (F.arithmetic complex.now.0) complex.now.1 partition.now) (meaning_of certificate.now) }
    ensures { IfOk result (λ place. ArePlaces (problem_of (F.arithmetic complex.now.0) complex.now.1 partition.now) (meaning_of certificate.now) place.items) }
{
    let _complex = complex;
    let mut place = vec![in alloc; 0u32; complex.count()]?;
    for i in 0..certificate.morse.len() {
        put_at(&mut place, &certificate.morse[i], i as u32 + 1);
    }
    Ok(place)
}
