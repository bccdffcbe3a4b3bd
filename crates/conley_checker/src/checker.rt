//! The test of a certificate, law by law.

ghost use Rattle.conley_mvf.specs.Partition.{IsMultivectorField};
ghost use Rattle.conley_certificate.specs.Analysis.{IsAnalysis};
ghost use Rattle.conley_certificate.specs.declared.reason.Reason.{Reason};
ghost use Rattle.std.specs.Prelude.{Err, ◌≡◌, ◌<◌, ◌^◌, ◌-◌, ◌∷◌, [], ℕ, Some, None, OnOk, IfOk, length, slice_index, All};
ghost use Rattle.conley_certificate.specs.Places.{first_failing};
ghost use Rattle.conley_certificate.specs.Problem.{Problem, cell_count, problem_of};
ghost use Rattle.conley_certificate_file.specs.CertificateMeaning.{meaning_of};
ghost use Rattle.conley_checker.specs.Given.{AreGiven, IsReachTest, AreRead, AreClassNumbers, GeneratorsNameSets};
ghost use Rattle.conley_certificate_file.specs.Certificate.{Fits};
ghost use Rattle.conley_certificate.specs.Laws.{failing, strict_law, matrix_degree, phi_degree, psi_degree, gamma_degree, gamma2_degree, boundary_law, phi_down, psi_down, gamma_down, gamma2_down, phi_law, psi_law, gamma_law, gamma2_law};

use crate::check_error::CheckError;
use crate::classes::compare_sets;
use crate::equation::Equation;
use crate::equations::compare_equation;
use crate::generators::{bases_of, compare_generators, dims_of, sets_of};
use crate::index::compare_index;
use crate::order_rows::compare_order;
use crate::places::places_of;
use crate::refusals::{Read, refuse_degrees, refuse_filters, refuse_strict};
use conley_certificate::Reason;
use conley_certificate_file::Certificate;
use conley_chains::NoMemory;
use conley_field::Field;
use conley_lefschetz::Complex;
use conley_lists::all_numbers;
use conley_mvf::Partition;
use conley_order::Grading;
use conley_transitions::transitions;
use std::alloc::{AllocError, Global};

/// The set, the dimension and the first cell of each generator, and the cells.
pub(crate) fn read_generators<F: Field>(
    alloc: Global,
    complex: &Complex<F>,
    partition: &Partition,
    certificate: &Certificate,
) -> Result<Read, NoMemory>
    requires given { AreGiven (problem_of (F.arithmetic complex.now.0) complex.now.1 partition.now) (meaning_of certificate.now) }
    requires named { GeneratorsNameSets (meaning_of certificate.now) }
    ensures { IfOk result (λ read. AreRead (problem_of (F.arithmetic complex.now.0) complex.now.1 partition.now) (meaning_of certificate.now) read) }
{
    let _complex = complex;
    let sets = sets_of(alloc, certificate)?;
    let dims = dims_of(alloc, certificate)?;
    let bases = bases_of(alloc, certificate)?;
    let cells = all_numbers(alloc, complex.count())?;
    Ok(Read {
        sets,
        dims,
        bases,
        cells,
    })
}

/// The laws of the matrices, in their order.
pub(crate) fn compare_matrices<F: Field, G: Grading>(
    alloc: Global,
    complex: &Complex<F>,
    partition: &Partition,
    reach: &G,
    certificate: &Certificate,
    read: &Read,
) -> Result<Option<Reason>, NoMemory>
    requires given { AreGiven (problem_of (F.arithmetic complex.now.0) complex.now.1 partition.now) (meaning_of certificate.now) }
    requires reach { IsReachTest (problem_of (F.arithmetic complex.now.0) complex.now.1 partition.now) (G.cell_count reach.now) (G.is_below reach.now) }
    requires read { AreRead (problem_of (F.arithmetic complex.now.0) complex.now.1 partition.now) (meaning_of certificate.now) read.now }
    ensures { IfOk result (λ found. found ≡ first_failing (boundary_law (problem_of (F.arithmetic complex.now.0) complex.now.1 partition.now)
        (meaning_of certificate.now) ∷ phi_down (problem_of (F.arithmetic complex.now.0) complex.now.1 partition.now) (meaning_of certificate.now) ∷ psi_down
        (problem_of (F.arithmetic complex.now.0) complex.now.1 partition.now) (meaning_of certificate.now) ∷ gamma_down
        (problem_of (F.arithmetic complex.now.0) complex.now.1 partition.now) (meaning_of certificate.now) ∷ gamma2_down
        (problem_of (F.arithmetic complex.now.0) complex.now.1 partition.now) (meaning_of certificate.now) ∷ phi_law
        (problem_of (F.arithmetic complex.now.0) complex.now.1 partition.now) (meaning_of certificate.now) ∷ psi_law
        (problem_of (F.arithmetic complex.now.0) complex.now.1 partition.now) (meaning_of certificate.now) ∷ gamma_law
        (problem_of (F.arithmetic complex.now.0) complex.now.1 partition.now) (meaning_of certificate.now) ∷ gamma2_law
        (problem_of (F.arithmetic complex.now.0) complex.now.1 partition.now) (meaning_of certificate.now) ∷ [])) }
{
    match compare_equation(alloc, complex, partition, certificate, Equation::Boundary)? {
        Some(reason) => return Ok(Some(reason)),
        None => {}
    }
    match refuse_filters(complex, partition, reach, certificate, read) {
        Some(reason) => return Ok(Some(reason)),
        None => {}
    }
    match compare_equation(alloc, complex, partition, certificate, Equation::Phi)? {
        Some(reason) => return Ok(Some(reason)),
        None => {}
    }
    match compare_equation(alloc, complex, partition, certificate, Equation::Psi)? {
        Some(reason) => return Ok(Some(reason)),
        None => {}
    }
    match compare_equation(alloc, complex, partition, certificate, Equation::Gamma)? {
        Some(reason) => return Ok(Some(reason)),
        None => {}
    }
    compare_equation(alloc, complex, partition, certificate, Equation::Gamma2)
}

/// The first law that fails, with its first place.
pub(crate) fn first_failure<F: Field, G: Grading>(
    alloc: Global,
    complex: &Complex<F>,
    partition: &Partition,
    class_of: &[u32],
    reach: &G,
    certificate: &Certificate,
) -> Result<Option<Reason>, NoMemory>
    requires given { AreGiven (problem_of (F.arithmetic complex.now.0) complex.now.1 partition.now) (meaning_of certificate.now) }
    requires classes { AreClassNumbers (problem_of (F.arithmetic complex.now.0) complex.now.1 partition.now) class_of.now }
    requires reach { IsReachTest (problem_of (F.arithmetic complex.now.0) complex.now.1 partition.now) (G.cell_count reach.now) (G.is_below reach.now) }
    ensures { IfOk result (λ found. found ≡ failing (problem_of (F.arithmetic complex.now.0) complex.now.1 partition.now) (meaning_of certificate.now)) }
{
    let place = places_of(alloc, complex, partition, certificate)?;
    match compare_sets(alloc, complex, partition, certificate, class_of, &place)? {
        Some(reason) => return Ok(Some(reason)),
        None => {}
    }
    match compare_order(alloc, complex, partition, reach, certificate)? {
        Some(reason) => return Ok(Some(reason)),
        None => {}
    }
    match compare_generators(complex, partition, certificate) {
        Some(reason) => return Ok(Some(reason)),
        None => {}
    }
    match compare_index(alloc, complex, partition, certificate, &place)? {
        Some(reason) => return Ok(Some(reason)),
        None => {}
    }
    let read = read_generators(alloc, complex, partition, certificate)?;
    match refuse_strict(complex, partition, reach, certificate, &read) {
        Some(reason) => return Ok(Some(reason)),
        None => {}
    }
    match refuse_degrees(complex, partition, certificate, &read) {
        Some(reason) => return Ok(Some(reason)),
        None => {}
    }
    let found = compare_matrices(alloc, complex, partition, reach, certificate, &read)?;
    Ok(found)
}

/// The same as `check`, where the classes and reach are given.
fn check_over<F: Field, G: Grading>(
    alloc: Global,
    complex: &Complex<F>,
    partition: &Partition,
    class_of: &[u32],
    reach: &G,
    certificate: &Certificate,
) -> Result<(), CheckError>
    requires given { AreGiven (problem_of (F.arithmetic complex.now.0) complex.now.1 partition.now) (meaning_of certificate.now) }
    requires classes { AreClassNumbers (problem_of (F.arithmetic complex.now.0) complex.now.1 partition.now) class_of.now }
    requires reach { IsReachTest (problem_of (F.arithmetic complex.now.0) complex.now.1 partition.now) (G.cell_count reach.now) (G.is_below reach.now) }
    ensures accepted { OnOk result (IsAnalysis (problem_of (F.arithmetic complex.now.0) complex.now.1 partition.now) (meaning_of certificate.now)) }
    ensures rejected { (reason : Reason) → result ≡ Err (CheckError.Rejected reason) → failing
        (problem_of (F.arithmetic complex.now.0) complex.now.1 partition.now) (meaning_of certificate.now) ≡ Some reason }
    ensures sound { (reason : Reason) → result ≡ Err (CheckError.Rejected reason) → IsAnalysis
        (problem_of (F.arithmetic complex.now.0) complex.now.1 partition.now) (meaning_of certificate.now) → ⊥ }
{
    match first_failure(alloc, complex, partition, class_of, reach, certificate)? {
        Some(reason) => Err(CheckError::Rejected(reason)),
        None => Ok(()),
    }
}

/// Whether cells, sets, generators and levels can be numbered. No memory holds more.
fn can_number(cells: usize, sets: usize, generators: usize, levels: usize) -> Result<(), NoMemory>
    ensures cells { OnOk result (cells < 2 ^ 32 - 1) }
    ensures sets { OnOk result (sets < 2 ^ 32 - 1) }
    ensures generators { OnOk result (generators < 2 ^ 32 - 1) }
    ensures levels { OnOk result (levels < 2 ^ 32 - 1) }
{
    let most = u32::MAX as usize;
    if cells >= most || sets >= most || generators >= most || levels >= most {
        return Err(AllocError);
    }
    Ok(())
}

/// Whether the certificate, which fits, is an analysis. `Rejected` tells the first law that fails, its part, its first place, and
/// the two values there. No homology is computed.
pub fn check<F: Field>(
    alloc: Global,
    complex: &Complex<F>,
    partition: &Partition,
    certificate: &Certificate,
) -> Result<(), CheckError>
    requires field { IsMultivectorField complex.now.1.faces partition.now }
    requires fits { Fits (F.arithmetic complex.now.0) complex.now.1 (meaning_of certificate.now) }
    ensures accepted { OnOk result (IsAnalysis (problem_of (F.arithmetic complex.now.0) complex.now.1 partition.now) (meaning_of certificate.now)) }
    ensures rejected { (reason : Reason) → result ≡ Err (CheckError.Rejected reason) → failing
        (problem_of (F.arithmetic complex.now.0) complex.now.1 partition.now) (meaning_of certificate.now) ≡ Some reason }
    ensures refuted { (reason : Reason) → result ≡ Err (CheckError.Rejected reason) → ¬ IsAnalysis
        (problem_of (F.arithmetic complex.now.0) complex.now.1 partition.now) (meaning_of certificate.now) }
{
    let cells = complex.count();
    let sets = certificate.morse.len();
    let generators = certificate.generators.len();
    let levels = complex.levels();
    can_number(cells, sets, generators, levels)?;
    let faces = complex.faces();
    let _order = faces.count();
    let digraph = transitions(alloc, faces, partition)?;
    let _heads = digraph.count();
    let grading = digraph.reach_rows(alloc)?;
    check_over(
        alloc,
        complex,
        partition,
        grading.classes(),
        &grading,
        certificate,
    )
}
