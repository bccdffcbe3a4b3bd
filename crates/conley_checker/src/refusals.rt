//! The laws on entries: strictness, dimensions, and that the maps go downward.

ghost use Rattle.std.specs.Prelude.{◌≡◌, ◌<◌, ◌^◌, ◌∷◌, [], ℕ, All, length, slice_index};
ghost use Rattle.conley_chains.specs.Matrix.{entry, column_count};
ghost use Rattle.conley_certificate.specs.Places.{first_failing, first_place, entry_law};
ghost use Rattle.conley_certificate.specs.Problem.{Problem, problem_of};
ghost use Rattle.conley_certificate_file.specs.CertificateMeaning.{meaning_of};
ghost use Rattle.conley_checker.specs.Filters.{joins};
ghost use Rattle.conley_checker.specs.Given.{AreGiven, IsReachTest, AreRead};
ghost use Rattle.conley_certificate.specs.Laws.{strict_law, matrix_degree, phi_degree, psi_degree, gamma_degree, gamma2_degree, phi_down, psi_down, gamma_down, gamma2_down};

use crate::entry_test::refuse;
use crate::filters::{Degree, Degrees, Filter, Strictness};
use conley_certificate::Reason;
use conley_certificate_file::Certificate;
use conley_chains::Matrix;
use conley_field::Field;
use conley_lefschetz::Complex;
use conley_mvf::Partition;
use conley_order::Grading;

/// The set, the dimension and the first cell of each generator, and the cells.
#[derive(Drop)]
pub(crate) struct Read {
    pub sets: Vec<u32>,
    pub dims: Vec<u8>,
    pub bases: Vec<u32>,
    pub cells: Vec<u32>,
}

/// No entry of the matrix joins generators of one set, or goes up.
pub(crate) fn refuse_strict<F: Field, G: Grading>(
    complex: &Complex<F>,
    partition: &Partition,
    reach: &G,
    certificate: &Certificate,
    read: &Read,
) -> Option<Reason>
    requires given { AreGiven (problem_of (F.arithmetic complex.now.0) complex.now.1 partition.now) (meaning_of certificate.now) }
    requires reach { IsReachTest (problem_of (F.arithmetic complex.now.0) complex.now.1 partition.now) (G.cell_count reach.now) (G.is_below reach.now) }
    requires read { AreRead (problem_of (F.arithmetic complex.now.0) complex.now.1 partition.now) (meaning_of certificate.now) read.now }
    ensures { result ≡ first_failing (strict_law (problem_of (F.arithmetic complex.now.0) complex.now.1 partition.now) (meaning_of certificate.now) ∷ []) }
{
    let _complex = complex;
    let _partition = partition;
    refuse(
        5,
        0,
        &certificate.matrix,
        &Strictness {
            reach,
            sets: &read.sets,
            bases: &read.bases,
        },
    )
}

/// The reason at the first entry of a matrix that joins other dimensions than a map of this degree does.
fn refuse_degree(
    part: u8,
    matrix: &Matrix,
    rows: &[u8],
    columns: &[u8],
    degree: Degree,
) -> Option<Reason>
    requires rows { matrix.now.rows ≡ length rows.now }
    requires columns { column_count matrix.now ≡ length columns.now }
    requires few { column_count matrix.now < 2 ^ 32 }
    ensures { result ≡ first_place (entry_law 6 part matrix.now.rows (column_count matrix.now) (entry matrix.now)
        (λ row column. joins degree (slice_index rows.now row) (slice_index columns.now column))) }
{
    refuse(
        6,
        part,
        matrix,
        &Degrees {
            rows,
            columns,
            degree,
        },
    )
}

/// The reason at the first entry of a matrix whose column's cell doesn't reach its row's cell.
fn refuse_upward<G: Grading>(
    law: u8,
    matrix: &Matrix,
    reach: &G,
    rows: &[u32],
    columns: &[u32],
) -> Option<Reason>
    requires rows { matrix.now.rows ≡ length rows.now }
    requires columns { column_count matrix.now ≡ length columns.now }
    requires few { column_count matrix.now < 2 ^ 32 }
    requires rows_within { All (λ x. x < G.cell_count reach.now) rows.now }
    requires columns_within { All (λ x. x < G.cell_count reach.now) columns.now }
    ensures { result ≡ first_place (entry_law law 0 matrix.now.rows (column_count matrix.now) (entry matrix.now)
        (λ row column. G.is_below reach.now (slice_index rows.now row) (slice_index columns.now column))) }
{
    refuse(
        law,
        0,
        matrix,
        &Filter {
            reach,
            rows,
            columns,
        },
    )
}

/// Entries join the dimensions of maps of their degree.
pub(crate) fn refuse_degrees<F: Field>(
    complex: &Complex<F>,
    partition: &Partition,
    certificate: &Certificate,
    read: &Read,
) -> Option<Reason>
    requires given { AreGiven (problem_of (F.arithmetic complex.now.0) complex.now.1 partition.now) (meaning_of certificate.now) }
    requires read { AreRead (problem_of (F.arithmetic complex.now.0) complex.now.1 partition.now) (meaning_of certificate.now) read.now }
    ensures { result ≡ first_failing (matrix_degree (problem_of (F.arithmetic complex.now.0) complex.now.1 partition.now) (meaning_of certificate.now) ∷
        phi_degree (problem_of (F.arithmetic complex.now.0) complex.now.1 partition.now) (meaning_of certificate.now) ∷ psi_degree
        (problem_of (F.arithmetic complex.now.0) complex.now.1 partition.now) (meaning_of certificate.now) ∷ gamma_degree
        (problem_of (F.arithmetic complex.now.0) complex.now.1 partition.now) (meaning_of certificate.now) ∷ gamma2_degree
        (problem_of (F.arithmetic complex.now.0) complex.now.1 partition.now) (meaning_of certificate.now) ∷ []) }
{
    let _complex = complex;
    let cells = complex.dims();
    let generators = read.dims.as_slice();
    match refuse_degree(1, &certificate.matrix, generators, generators, Degree::Down) {
        Some(reason) => return Some(reason),
        None => {}
    }
    match refuse_degree(2, &certificate.phi, cells, generators, Degree::Level) {
        Some(reason) => return Some(reason),
        None => {}
    }
    match refuse_degree(3, &certificate.psi, generators, cells, Degree::Level) {
        Some(reason) => return Some(reason),
        None => {}
    }
    match refuse_degree(4, &certificate.gamma, cells, cells, Degree::Up) {
        Some(reason) => return Some(reason),
        None => {}
    }
    refuse_degree(5, &certificate.gamma2, generators, generators, Degree::Up)
}

/// Entries of the maps go downward.
pub(crate) fn refuse_filters<F: Field, G: Grading>(
    complex: &Complex<F>,
    partition: &Partition,
    reach: &G,
    certificate: &Certificate,
    read: &Read,
) -> Option<Reason>
    requires given { AreGiven (problem_of (F.arithmetic complex.now.0) complex.now.1 partition.now) (meaning_of certificate.now) }
    requires reach { IsReachTest (problem_of (F.arithmetic complex.now.0) complex.now.1 partition.now) (G.cell_count reach.now) (G.is_below reach.now) }
    requires read { AreRead (problem_of (F.arithmetic complex.now.0) complex.now.1 partition.now) (meaning_of certificate.now) read.now }
    ensures { result ≡ first_failing (phi_down (problem_of (F.arithmetic complex.now.0) complex.now.1 partition.now) (meaning_of certificate.now) ∷ psi_down
        (problem_of (F.arithmetic complex.now.0) complex.now.1 partition.now) (meaning_of certificate.now) ∷ gamma_down
        (problem_of (F.arithmetic complex.now.0) complex.now.1 partition.now) (meaning_of certificate.now) ∷ gamma2_down
        (problem_of (F.arithmetic complex.now.0) complex.now.1 partition.now) (meaning_of certificate.now) ∷ []) }
{
    let _complex = complex;
    let _partition = partition;
    let cells = read.cells.as_slice();
    let bases = read.bases.as_slice();
    match refuse_upward(8, &certificate.phi, reach, cells, bases) {
        Some(reason) => return Some(reason),
        None => {}
    }
    match refuse_upward(9, &certificate.psi, reach, bases, cells) {
        Some(reason) => return Some(reason),
        None => {}
    }
    match refuse_upward(10, &certificate.gamma, reach, cells, cells) {
        Some(reason) => return Some(reason),
        None => {}
    }
    refuse_upward(11, &certificate.gamma2, reach, bases, bases)
}
