//! The complex of a file, before its parts are looked at.

ghost use Rattle.std.specs.Prelude.{◌≡◌, ◌<◌, ◌≤◌, ◌≢◌, ℕ, All, IfOk, IfSome, IfNone, OnOk, IsErrOf, length};
ghost use Rattle.conley_field.specs.AnyField.{arithmetic_of};
ghost use Rattle.conley_field.specs.Prime.{residues};
ghost use Rattle.conley_lefschetz.specs.Complex.{IsLayout};
ghost use Rattle.conley_input.specs.Limits.{most_cells, most_listed, most_sets, most_dimension};
ghost use Rattle.conley_input.specs.Listing.{IsComplexFor, IsComplexIn, labels_of, dims_of, count_of};
ghost use Rattle.conley_input.specs.Meaning.{complex_of, field_of, sets_of, file_of};
ghost use Rattle.conley_input.specs.RefusalOrder.{number};
ghost use Rattle.conley_input.specs.Refusals.{FailsIn, IsFirstIn, IsBadName, IsFirstRefusal, IsClear};

use crate::cells::read_listed;
use crate::error::{FileFault, InputError};
use crate::file::{ComplexFile, FieldFile, ProblemFile, SetsFile};
use crate::generated::{read_cubes, read_simplices};
use crate::labels::first_bad_label;
use crate::limits::refuse_sizes;
use conley_field::AnyField;
use conley_lefschetz::Complex;
use std::alloc::Global;

/// The field of the order that the file names.
fn field_of_order(file: &ProblemFile) -> Result<AnyField, InputError>
    requires before { IsClear (file_of file.now) 3 }
    ensures ok { IfOk result (λ _. IsClear (file_of file.now) 4) }
    ensures field { IfOk result (λ field. arithmetic_of field ≡ residues file.now.scalars) }
    ensures err { (fault : _) → IsErrOf result (InputError.Bad fault) → IsFirstRefusal (file_of file.now) fault }
{
    match AnyField::of(file.scalars) {
        Some(field) => Ok(field),
        None => Err(InputError::Bad(FileFault::UnknownField(file.scalars))),
    }
}

/// The place of the first name that breaks the rule of labels, counted on from the labels of the complex.
fn first_bad_name(file: &ProblemFile) -> Option<u32>
    requires labels { length (labels_of (file_of file.now).complex) ≤ most_cells }
    requires names { length (file_of file.now).sets.names ≤ most_sets }
    ensures some { IfSome result (IsBadName (file_of file.now)) }
    ensures first { IfSome result (λ k. (j : ℕ) → j < k → ¬ IsBadName (file_of file.now) j) }
    ensures none { IfNone result ((j : ℕ) → ¬ IsBadName (file_of file.now) j) }
{
    match first_bad_label(&file.sets.names) {
        Some(k) => Some((file.complex.cells() + k) as u32),
        None => None,
    }
}

/// Of a refusal of the complex and a bad name the one that stands first: labels of the complex stand before names, and names before all else.
fn earlier(fault: FileFault, bad_name: Option<u32>) -> FileFault
    ensures label { number fault ≡ 5 → result ≡ fault }
    ensures name { number fault ≢ 5 → IfSome bad_name (λ k. result ≡ FileFault.BadLabel k) }
    ensures none { IfNone bad_name (result ≡ fault) }
{
    match fault {
        FileFault::BadLabel(k) => FileFault::BadLabel(k),
        other => match bad_name {
            Some(k) => FileFault::BadLabel(k),
            None => other,
        },
    }
}

/// The complex of what is listed, or the first refusal of it.
fn made(
    alloc: Global,
    field: AnyField,
    complex: ComplexFile,
) -> Result<Complex<AnyField>, InputError>
    requires labels { length (labels_of (complex_of complex)) ≤ most_cells }
    requires listed { count_of (complex_of complex) ≤ most_listed }
    requires dims { All (λ dim. dim ≤ most_dimension) (dims_of (complex_of complex)) }
    ensures field { IfOk result (λ c. c.0 ≡ field) }
    ensures laws { IfOk result (λ c. IsLayout (arithmetic_of field) c.1) }
    ensures complex { IfOk result (λ c. IsComplexFor (arithmetic_of field) (complex_of complex) c.1) }
    ensures accepted { OnOk result ((fault : _) → ¬ FailsIn (arithmetic_of field) (complex_of complex) fault) }
    ensures err { (fault : _) → IsErrOf result (InputError.Bad fault) → IsFirstIn (arithmetic_of field) (complex_of complex) fault }
{
    match complex {
        ComplexFile::Lefschetz(cells, incidences) => read_listed(alloc, field, cells, &incidences),
        ComplexFile::Simplicial(vertices, simplices) => {
            read_simplices(alloc, field, &vertices, &simplices)
        }
        ComplexFile::Cubical(axes, cubes) => read_cubes(alloc, field, axes, &cubes),
    }
}

/// The complex of a file, its field and its named sets as they are listed; or the first refusal before those of parts.
pub(crate) fn read_complex(
    alloc: Global,
    file: ProblemFile,
) -> Result<(Complex<AnyField>, FieldFile, SetsFile), InputError>
    ensures clear { IfOk result (λ _. IsClear (file_of file) 10) }
    ensures order { IfOk result (λ read. (arithmetic_of read.0.0).order ≡ file.scalars) }
    ensures complex { IfOk result (λ read. IsComplexIn (file_of file) read.0.1) }
    ensures field { IfOk result (λ read. read.1 ≡ file.field) }
    ensures sets { IfOk result (λ read. read.2 ≡ file.sets) }
    ensures err { (fault : _) → IsErrOf result (InputError.Bad fault) → IsFirstRefusal (file_of file) fault }
{
    let scalars = field_of_order(&file)?;
    refuse_sizes(&file)?;
    let bad_name = first_bad_name(&file);
    let ProblemFile {
        complex,
        field,
        sets,
        ..
    } = file;
    let complex = match made(alloc, scalars, complex) {
        Ok(complex) => complex,
        Err(InputError::Bad(fault)) => return Err(InputError::Bad(earlier(fault, bad_name))),
        Err(InputError::NoMemory) => return Err(InputError::NoMemory),
    };
    if let Some(k) = bad_name {
        return Err(InputError::Bad(FileFault::BadLabel(k)));
    }
    Ok((complex, field, sets))
}
