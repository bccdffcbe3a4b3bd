//! The boundary as a matrix, made column by column.

ghost use Rattle.std.specs.Prelude.{◌≡◌, ◌≢◌, ◌<◌, ℕ, [], All, IfOk, length, map, slice_index_or};
ghost use Rattle.std.specs.List.Sorted.{IsStrictlyIncreasing};
ghost use Rattle.conley_chains.specs.Matrix.{column_count};
ghost use Rattle.conley_lists.specs.Lists.{ListedStep};
ghost use Rattle.conley_lefschetz.specs.Listing.{incidence_of};
ghost use Rattle.conley_lefschetz.specs.Making.{cells_in_triple, column_of};

use crate::incidences::scalar_at;
use conley_chains::{Chain, Matrix};
use conley_faces::Faces;
use conley_field::Scalar;
use indexmap::IndexSet;
use std::alloc::{AllocError, Global};

/// Column x of the boundary, over the cells directly under x.
fn column_of(
    alloc: Global,
    places: &IndexSet<(u32, u32)>,
    incidences: &[(u32, u32, Scalar)],
    x: u32,
    direct: &[u32],
) -> Result<Chain, AllocError>
    requires places { places.now.keys ≡ map cells_in_triple incidences.now }
    requires ascending { IsStrictlyIncreasing direct.now }
    requires not_zero { All (λ y. incidence_of incidences.now x y ≢ 0) direct.now }
    ensures { IfOk result (λ chain. chain ≡ column_of incidences.now x direct.now) }
{
    let mut pairs = Vec::new(alloc);
    for y in direct {
        pairs.push((*y, scalar_at(places, incidences, x, *y)))?;
    }
    Ok(Chain::from_pairs(alloc, &pairs)?)
}

/// The boundary: column x has the incidence of x and y in row y.
pub(crate) fn boundary_of(
    alloc: Global,
    places: &IndexSet<(u32, u32)>,
    incidences: &[(u32, u32, Scalar)],
    faces: &Faces,
) -> Result<Matrix, AllocError>
    requires places { places.now.keys ≡ map cells_in_triple incidences.now }
    requires not_zero { (x y : ℕ) → ListedStep faces.now x y → incidence_of incidences.now x y ≢ 0 }
    ensures rows { IfOk result (λ m. m.rows ≡ length faces.now) }
    ensures columns { IfOk result (λ m. column_count m ≡ length faces.now) }
    ensures entries { IfOk result (λ m. (x : ℕ) → x < length faces.now → slice_index_or m.columns x [] ≡ column_of incidences.now x
        (slice_index_or faces.now x [])) }
{
    let cells = faces.count();
    let mut columns = Vec::new(alloc);
    for x in 0..cells as u32 {
        columns.push(column_of(alloc, places, incidences, x, faces.direct(x))?)?;
    }
    Ok(Matrix::from_columns(cells, columns))
}
