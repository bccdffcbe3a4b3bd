//! The complexes that simplices and cubes generate.

ghost use Rattle.std.specs.Prelude.{◌≡◌, ◌<◌, ◌^◌, IfOk, OnOk, IsErrOf, length};
ghost use Rattle.conley_field.specs.AnyField.{arithmetic_of};
ghost use Rattle.conley_lefschetz.specs.Listing.{bytes_of};
ghost use Rattle.conley_lefschetz.specs.Complex.{IsLayout};
ghost use Rattle.conley_lists.specs.Lists.{items_of};
ghost use Rattle.conley_input.specs.Errors as spec;
ghost use Rattle.conley_input.specs.File as file;
ghost use Rattle.conley_input.specs.Listing.{IsComplexFor};
ghost use Rattle.conley_input.specs.Refusals.{FailsIn, IsFirstIn};

use crate::error::{FileFault, InputError};
use crate::limits::MOST_GENERATED;
use conley_cubical::{CubicalError, cubical};
use conley_field::AnyField;
use conley_lefschetz::Complex;
use conley_simplicial::{SimplicialError, simplicial};
use std::alloc::Global;

/// The refusal of a file whose vertices and simplices make no complex.
fn simplices_error(error: SimplicialError) -> InputError
    ensures { result ≡ spec.simplices_error error }
{
    match error {
        SimplicialError::BadLabel(k) => InputError::Bad(FileFault::BadLabel(k)),
        SimplicialError::DuplicateLabel(i, j) => InputError::Bad(FileFault::DuplicateLabel(i, j)),
        SimplicialError::BadSimplex(k) => InputError::Bad(FileFault::BadSimplex(k)),
        SimplicialError::TooManyCells(least) => InputError::Bad(FileFault::TooManyCells(least)),
        SimplicialError::NoMemory => InputError::NoMemory,
    }
}

/// The refusal of a file whose axes and cubes make no complex.
fn cubes_error(error: CubicalError) -> InputError
    ensures { result ≡ spec.cubes_error error }
{
    match error {
        CubicalError::BadAxes(axes) => InputError::Bad(FileFault::BadAxes(axes)),
        CubicalError::BadCube(k) => InputError::Bad(FileFault::BadCube(k)),
        CubicalError::TooManyCells(least) => InputError::Bad(FileFault::TooManyCells(least)),
        CubicalError::NoMemory => InputError::NoMemory,
    }
}

/// The complex that vertices and simplices generate, or the first refusal of them.
pub(crate) fn read_simplices(
    alloc: Global,
    field: AnyField,
    vertices: &[String],
    simplices: &[Vec<u32>],
) -> Result<Complex<AnyField>, InputError>
    requires few_vertices { length vertices.now < 2 ^ 32 }
    requires few_simplices { length simplices.now < 2 ^ 32 }
    ensures field { IfOk result (λ c. c.0 ≡ field) }
    ensures laws { IfOk result (λ c. IsLayout (arithmetic_of field) c.1) }
    ensures complex { IfOk result (λ c. IsComplexFor (arithmetic_of field) (file.simplicial (bytes_of vertices.now) (items_of simplices.now)) c.1) }
    ensures accepted { OnOk result ((fault : _) → ¬ FailsIn (arithmetic_of field) (file.simplicial (bytes_of vertices.now) (items_of simplices.now)) fault) }
    ensures err { (fault : _) → IsErrOf result (InputError.Bad fault) → IsFirstIn (arithmetic_of field)
        (file.simplicial (bytes_of vertices.now) (items_of simplices.now)) fault }
{
    match simplicial(alloc, field, vertices, simplices, MOST_GENERATED) {
        Ok(complex) => {
            let _laws = complex.count();
            Ok(complex)
        }
        Err(error) => Err(simplices_error(error)),
    }
}

/// The complex that cubes generate, or the first refusal of them.
pub(crate) fn read_cubes(
    alloc: Global,
    field: AnyField,
    axes: u32,
    cubes: &[Vec<(i32, i32)>],
) -> Result<Complex<AnyField>, InputError>
    requires { length cubes.now < 2 ^ 32 }
    ensures field { IfOk result (λ c. c.0 ≡ field) }
    ensures laws { IfOk result (λ c. IsLayout (arithmetic_of field) c.1) }
    ensures complex { IfOk result (λ c. IsComplexFor (arithmetic_of field) (file.cubical axes (items_of cubes.now)) c.1) }
    ensures accepted { OnOk result ((fault : _) → ¬ FailsIn (arithmetic_of field) (file.cubical axes (items_of cubes.now)) fault) }
    ensures err { (fault : _) → IsErrOf result (InputError.Bad fault) → IsFirstIn (arithmetic_of field) (file.cubical axes (items_of cubes.now)) fault }
{
    match cubical(alloc, field, axes as usize, cubes, MOST_GENERATED) {
        Ok(complex) => {
            let _laws = complex.count();
            Ok(complex)
        }
        Err(error) => Err(cubes_error(error)),
    }
}
