//! Where the square of a matrix isn't zero, column by column, over the entries that are kept.

ghost use Rattle.std.specs.Prelude.{◌≡◌, ◌≢◌, ◌<◌, ◌≤◌, ◌^◌, ℕ, None, All, IfOk, IsTrue, length, replicate, slice_index};
ghost use Rattle.conley_first.specs.Places.{FindsFirst, FindsFirstNumber};
ghost use Rattle.conley_algebra.specs.Entries.{product_of};
ghost use Rattle.conley_chains.specs.Chain.{coefficient, HasCodes};
ghost use Rattle.conley_chains.specs.Matrix.{entry, column_count, AllCodes};
ghost use Rattle.conley_lefschetz.specs.Making.{AddsMultiple, IsSquareColumn};

use conley_chains::{Chain, Matrix};
use conley_field::{Field, Scalar};
use std::alloc::{AllocError, Global};

/// Adds a multiple of a chain to a row of sums.
fn add_multiple<F: Field>(field: &F, sums: &mut [Scalar], by: Scalar, chain: &Chain)
    requires by_below { by < (F.arithmetic field.now).order }
    requires codes { HasCodes (F.arithmetic field.now) chain.now }
    requires places { (place : ℕ) → length sums.old ≤ place → coefficient chain.now place ≡ 0 }
    requires sums_codes { All (λ sum. sum < (F.arithmetic field.now).order) sums.old }
    ensures { AddsMultiple (F.arithmetic field.now) sums.old sums.new by chain.now }
{
    for e in chain.entries() {
        let place = e.0 as usize;
        sums[place] = field.add(sums[place], field.mul(by, e.1));
    }
}

/// Adds column x of the square to a row of zeros.
fn add_column<F: Field>(field: &F, sums: &mut [Scalar], matrix: &Matrix, x: u32)
    requires width { length sums.old ≡ matrix.now.rows }
    requires zero { All (λ sum. sum ≡ 0) sums.old }
    requires square { matrix.now.rows ≡ column_count matrix.now }
    requires codes { AllCodes (F.arithmetic field.now) matrix.now }
    requires within { x < column_count matrix.now }
    ensures { IsSquareColumn (F.arithmetic field.now) matrix.now x sums.new }
{
    for e in matrix.column(x).entries() {
        add_multiple(field, sums, e.1, matrix.column(e.0));
    }
}

/// Whether the sums are zero at each place of the chain.
fn is_zero_along(sums: &[Scalar], chain: &Chain) -> bool
    requires { (place : ℕ) → length sums.now ≤ place → coefficient chain.now place ≡ 0 }
    ensures { IsTrue result → (place : ℕ) → coefficient chain.now place ≢ 0 → slice_index sums.now place ≡ 0 }
{
    for e in chain.entries() {
        if sums[e.0 as usize].code() != 0 {
            return false;
        }
    }
    true
}

/// Whether the sums are zero at each place of each column that column x names.
fn is_zero_under(sums: &[Scalar], matrix: &Matrix, x: u32) -> bool
    requires width { length sums.now ≡ matrix.now.rows }
    requires square { matrix.now.rows ≡ column_count matrix.now }
    requires within { x < column_count matrix.now }
    ensures { IsTrue result → (y z : ℕ) → entry matrix.now y x ≢ 0 → entry matrix.now z y ≢ 0 → slice_index sums.now z ≡ 0 }
{
    for e in matrix.column(x).entries() {
        if !is_zero_along(sums, matrix.column(e.0)) {
            return false;
        }
    }
    true
}

/// The first place at which a sum isn't zero.
fn first_not_zero(sums: &[Scalar]) -> Option<u32>
    requires { length sums.now < 2 ^ 32 }
    ensures { FindsFirstNumber (λ z. slice_index sums.now z ≢ 0) result }
{
    for z in 0..sums.len() as u32 {
        if sums[z as usize].code() != 0 {
            return Some(z);
        }
    }
    None
}

/// The first row in which column x of the square isn't zero. Where there is none, the sums are zeros again.
fn first_in_column<F: Field>(field: &F, sums: &mut [Scalar], matrix: &Matrix, x: u32) -> Option<u32>
    requires few { column_count matrix.now < 2 ^ 32 }
    requires width { length sums.old ≡ matrix.now.rows }
    requires zero { All (λ sum. sum ≡ 0) sums.old }
    requires square { matrix.now.rows ≡ column_count matrix.now }
    requires codes { AllCodes (F.arithmetic field.now) matrix.now }
    requires within { x < column_count matrix.now }
    ensures first { FindsFirstNumber (λ z. product_of (F.arithmetic field.now) (column_count matrix.now) (entry matrix.now) (entry matrix.now) z x ≢ 0) result }
    ensures zero { result ≡ None → All (λ sum. sum ≡ 0) sums.new }
{
    add_column(field, sums, matrix, x);
    if is_zero_under(sums, matrix, x) {
        return None;
    }
    first_not_zero(sums)
}

/// So many zeros.
fn zeros(alloc: Global, count: usize) -> Result<Vec<Scalar>, AllocError>
    ensures { IfOk result (λ row. row.items ≡ replicate count 0) }
{
    Ok(vec![in alloc; Scalar::of(0); count]?)
}

/// The first column and row in which the square isn't zero.
pub(crate) fn first_in_square<F: Field>(
    alloc: Global,
    field: &F,
    matrix: &Matrix,
) -> Result<Option<(u32, u32)>, AllocError>
    requires few { column_count matrix.now < 2 ^ 32 }
    requires square { matrix.now.rows ≡ column_count matrix.now }
    requires codes { AllCodes (F.arithmetic field.now) matrix.now }
    ensures { IfOk result (FindsFirst (λ x z. product_of (F.arithmetic field.now) (column_count matrix.now) (entry matrix.now) (entry matrix.now) z x ≢ 0)) }
{
    let mut row = zeros(alloc, matrix.columns())?;
    let sums = row.as_mut_slice();
    for x in 0..matrix.columns() as u32 {
        if let Some(z) = first_in_column(field, sums, matrix, x) {
            return Ok(Some((x, z)));
        }
    }
    Ok(None)
}
