//! The complex of listed cells.

ghost use Rattle.std.specs.Prelude.{◌≡◌, ◌≢◌, ◌≤◌, ◌<◌, ◌^◌, All, IfOk, OnOk, IsErrOf, length, map};
ghost use Rattle.conley_json.specs.Meaning.{texts};
ghost use Rattle.conley_field.specs.AnyField.{arithmetic_of};
ghost use Rattle.conley_lefschetz.specs.Listing.{bytes_of};
ghost use Rattle.conley_lefschetz.specs.Fault.{IsFirstFault};
ghost use Rattle.conley_lefschetz.specs.Complex.{IsLayout, IsComplexOf};
ghost use Rattle.conley_input.specs.Errors as spec;
ghost use Rattle.conley_input.specs.File as file;
ghost use Rattle.conley_input.specs.Limits.{most_dimension};
ghost use Rattle.conley_input.specs.Listing as listed;
ghost use Rattle.conley_input.specs.Listing.{IsComplexFor};
ghost use Rattle.conley_input.specs.Meaning.{listed_cells};
ghost use Rattle.conley_input.specs.Refusals.{FailsIn, IsFirstIn};

use crate::error::{FileFault, InputError};
use crate::labels::first_bad_label;
use conley_field::{AnyField, Field, Scalar};
use conley_lefschetz::{Complex, ComplexError};
use std::alloc::{AllocError, Global};

/// The labels and the dimensions of cells.
fn split(alloc: Global, cells: Vec<(String, u32)>) -> Result<(Vec<String>, Vec<u32>), AllocError>
    ensures labels { IfOk result (λ pair. texts pair.0 ≡ map (λ cell. cell.0) (listed_cells cells)) }
    ensures same { IfOk result (λ pair. length pair.1.items ≡ length pair.0.items) }
    ensures dims { IfOk result (λ pair. pair.1.items ≡ map (λ cell. cell.1) (listed_cells cells)) }
{
    let mut labels = Vec::new(alloc);
    let mut dims = Vec::new(alloc);
    for (label, dim) in cells {
        labels.push(label)?;
        dims.push(dim)?;
    }
    Ok((labels, dims))
}

/// The dimensions, each of which fits a byte.
fn narrow(alloc: Global, dims: &[u32]) -> Result<Vec<u8>, AllocError>
    requires { All (λ dim. dim ≤ most_dimension) dims.now }
    ensures { IfOk result (λ narrowed. narrowed.items ≡ dims.now) }
{
    let mut narrowed = Vec::new(alloc);
    for dim in dims {
        narrowed.push(*dim as u8)?;
    }
    Ok(narrowed)
}

/// The incidence with the scalar of its value.
fn with_scalar(field: &AnyField, incidence: &(u32, u32, i64)) -> (u32, u32, Scalar)
    ensures { result ≡ listed.with_scalar (arithmetic_of field.now) incidence.now }
{
    let (x, y, value) = *incidence;
    (x, y, field.from_int(value))
}

/// The incidences with the scalar of each value.
fn with_scalars(
    alloc: Global,
    field: &AnyField,
    incidences: &[(u32, u32, i64)],
) -> Result<Vec<(u32, u32, Scalar)>, AllocError>
    ensures { IfOk result (λ list. list.items ≡ listed.with_scalars (arithmetic_of field.now) incidences.now) }
{
    let mut list = Vec::new(alloc);
    for incidence in incidences {
        list.push(with_scalar(field, incidence))?;
    }
    Ok(list)
}

/// The complex of cells and incidences, or its first fault.
fn complex_of_cells(
    alloc: Global,
    field: AnyField,
    labels: Vec<String>,
    dims: &[u32],
    incidences: &[(u32, u32, i64)],
) -> Result<Complex<AnyField>, ComplexError>
    requires count { length labels.items ≡ length dims.now }
    requires dims { All (λ dim. dim ≤ most_dimension) dims.now }
    ensures field { IfOk result (λ c. c.0 ≡ field) }
    ensures ok { IfOk result (λ c. IsComplexOf (arithmetic_of field) (record {
      labels = bytes_of labels.items;
      dims = dims.now;
      incidences =
          listed.with_scalars (arithmetic_of field) incidences.now;
    }) c.1) }
    ensures err { (error : _) → IsErrOf result error → error ≢ ComplexError.NoMemory →
        IsFirstFault (arithmetic_of field) (record {
          labels = bytes_of labels.items;
          dims = dims.now;
          incidences =
              listed.with_scalars (arithmetic_of field) incidences.now;
        }) error }
{
    let dims = narrow(alloc, dims)?;
    let incidences = with_scalars(alloc, &field, incidences)?;
    Complex::new(alloc, field, labels, dims, &incidences)
}

/// The refusal of a file whose cells make no complex.
fn cells_error(error: ComplexError) -> InputError
    ensures { result ≡ spec.cells_error error }
{
    match error {
        ComplexError::DuplicateLabel(i, j) => InputError::Bad(FileFault::DuplicateLabel(i, j)),
        ComplexError::BadIncidence(k, why) => InputError::Bad(FileFault::BadIncidence(k, why)),
        ComplexError::NotBoundary(x, z) => InputError::Bad(FileFault::NotBoundary(x, z)),
        ComplexError::NoMemory => InputError::NoMemory,
    }
}

/// The complex of listed cells, or the first refusal of them.
pub(crate) fn read_listed(
    alloc: Global,
    field: AnyField,
    cells: Vec<(String, u32)>,
    incidences: &[(u32, u32, i64)],
) -> Result<Complex<AnyField>, InputError>
    requires count { length cells.items < 2 ^ 32 }
    requires dims { All (λ dim. dim ≤ most_dimension) (map (λ cell. cell.1) (listed_cells cells)) }
    ensures field { IfOk result (λ c. c.0 ≡ field) }
    ensures laws { IfOk result (λ c. IsLayout (arithmetic_of field) c.1) }
    ensures complex { IfOk result (λ c. IsComplexFor (arithmetic_of field) (file.lefschetz (listed_cells cells) incidences.now) c.1) }
    ensures accepted { OnOk result ((fault : _) → ¬ FailsIn (arithmetic_of field) (file.lefschetz (listed_cells cells) incidences.now) fault) }
    ensures err { (fault : _) → IsErrOf result (InputError.Bad fault) → IsFirstIn (arithmetic_of field) (file.lefschetz (listed_cells cells) incidences.now)
        fault }
{
    let (labels, dims) = split(alloc, cells)?;
    if let Some(k) = first_bad_label(&labels) {
        return Err(InputError::Bad(FileFault::BadLabel(k as u32)));
    }
    match complex_of_cells(alloc, field, labels, &dims, incidences) {
        Ok(complex) => {
            let _laws = complex.count();
            Ok(complex)
        }
        Err(error) => Err(cells_error(error)),
    }
}
