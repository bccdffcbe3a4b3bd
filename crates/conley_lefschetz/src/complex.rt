//! Complexes of cells.

ghost use Rattle.std.specs.Prelude.{◌≡◌, ◌≢◌, ◌+◌, ◌<◌, ◌^◌, ℕ, [], All, IfOk, OnOk, IfSome, IfNone, IsErrOf, length, slice_index_or};
ghost use Rattle.conley_lefschetz.specs.Listing.{bytes_of, dim_in};
ghost use Rattle.conley_lefschetz.specs.Fault.{IsFirstFault};
ghost use Rattle.conley_lefschetz.specs.Complex.{Layout, IsLayout, IsComplexOf};

use crate::ComplexError;
use crate::boundary::boundary_of;
use crate::incidences::{faces_of, first_fault};
use crate::labels::number_labels;
use crate::levels::levels_of;
use crate::square::first_in_square;
use conley_chains::Matrix;
use conley_faces::Faces;
use conley_field::{Field, Scalar};
use indexmap::IndexSet;
use std::alloc::Global;
use std::marker::Model;

/// Cells, numbered from 0, with distinct labels, dimensions, and a boundary of square zero that leads one dimension down.
#[derive(Drop)]
pub struct Complex<F: Field> {
    field: F,
    names: IndexSet<String>,
    matrix: Matrix,
    dims: Vec<u8>,
    faces: Faces,
    levels: usize,
}

impl<F: Field> Model for Complex<F> {
    ghost use Rattle.conley_lefschetz.specs.Listing.{bytes_of};
    ghost use Rattle.conley_lefschetz.specs.Complex.{Layout, IsLayout};

    ghost Value = { F × Layout };

    ghost view = { λ c. (c.field, record { labels = bytes_of c.names.keys; boundary = c.matrix; dims = c.dims.items; faces = c.faces; levels = c.levels }) };

    ghost invariant = { λ c. IsLayout (F.arithmetic c.field) (record {
      labels = bytes_of c.names.keys;
      boundary = c.matrix;
      dims = c.dims.items;
      faces =
          c.faces;
      levels = c.levels;
    }) };
}

/// Whether lists of these lengths can be numbered together. No memory holds longer ones.
fn can_number(cells: usize, incidences: usize) -> Result<(), ComplexError>
    ensures few { OnOk result (cells + incidences < 2 ^ 32) }
    ensures err { (error : _) → IsErrOf result error → error ≡ ComplexError.NoMemory }
{
    if cells > u32::MAX as usize || incidences > u32::MAX as usize - cells {
        return Err(ComplexError::NoMemory);
    }
    Ok(())
}

impl<F: Field> Complex<F> {
    /// The complex of the cells with these labels and dimensions, where each triple (x, y, a) says that the incidence of x and y is a.
    /// A refusal is the first fault: equal labels by the later one, then the earlier; then incidences by their place, each by the
    /// least number of its faults; then cells x and z where the square of the boundary isn't zero. `NoMemory` may come at any time.
    pub fn new(
        alloc: Global,
        field: F,
        labels: Vec<String>,
        dims: Vec<u8>,
        incidences: &[(u32, u32, Scalar)],
    ) -> Result<Complex<F>, ComplexError>
        requires count { length labels.items ≡ length dims.items }
        requires codes { All (λ i. i.2 < (F.arithmetic field).order) incidences.now }
        ensures field { IfOk result (λ c. c.0 ≡ field) }
        ensures ok { IfOk result (λ c. IsComplexOf (F.arithmetic field) (record {
          labels = bytes_of labels.items;
          dims = dims.items;
          incidences =
              incidences.now;
        }) c.1) }
        ensures err { (error : _) → IsErrOf result error → error ≢ ComplexError.NoMemory → IsFirstFault (F.arithmetic field)
            (record { labels = bytes_of labels.items; dims = dims.items; incidences = incidences.now }) error }
    {
        can_number(labels.len(), incidences.len())?;
        let names = number_labels(alloc, labels)?;
        let mut places = IndexSet::new(alloc);
        if let Some((k, why)) = first_fault(&dims, incidences, &mut places)? {
            return Err(ComplexError::BadIncidence(k as u32, why));
        }
        let faces = faces_of(alloc, &dims, incidences)?;
        let matrix = boundary_of(alloc, &places, incidences, &faces)?;
        if let Some((x, z)) = first_in_square(alloc, &field, &matrix)? {
            return Err(ComplexError::NotBoundary(x, z));
        }
        let levels = levels_of(&dims);
        Ok(Complex {
            field,
            names,
            matrix,
            dims,
            faces,
            levels,
        })
    }

    /// The field of the incidences. No memory.
    pub fn field(&self) -> &F
        ensures field { result.now ≡ self.now.0 }
        ensures laws { IsLayout (F.arithmetic self.now.0) self.now.1 }
    {
        &self.field
    }

    /// How many cells there are. No memory.
    pub fn count(&self) -> usize
        ensures count { result ≡ length self.now.1.dims }
        ensures laws { IsLayout (F.arithmetic self.now.0) self.now.1 }
    {
        self.dims.len()
    }

    /// One more than the greatest dimension, 0 where there is no cell. No memory.
    pub fn levels(&self) -> usize
        ensures levels { result ≡ self.now.1.levels }
        ensures laws { IsLayout (F.arithmetic self.now.0) self.now.1 }
    {
        self.levels
    }

    /// The label of a cell. No memory.
    pub fn label(&self, cell: u32) -> &str
        requires { cell < length self.now.1.dims }
        ensures label { result.now ≡ slice_index_or self.now.1.labels cell [] }
        ensures laws { IsLayout (F.arithmetic self.now.0) self.now.1 }
    {
        self.names[cell as usize].as_str()
    }

    /// The dimension of a cell. No memory.
    pub fn dim(&self, cell: u32) -> u8
        requires { cell < length self.now.1.dims }
        ensures dim { result ≡ dim_in self.now.1.dims cell }
        ensures laws { IsLayout (F.arithmetic self.now.0) self.now.1 }
    {
        self.dims[cell as usize]
    }

    /// The dimensions of all cells. No memory.
    pub fn dims(&self) -> &[u8]
        ensures dims { result.now ≡ self.now.1.dims }
        ensures laws { IsLayout (F.arithmetic self.now.0) self.now.1 }
    {
        &self.dims
    }

    /// The boundary, a matrix with a row and a column for each cell: column x has the incidence of x and y in row y. No memory.
    pub fn boundary(&self) -> &Matrix
        ensures boundary { result.now ≡ self.now.1.boundary }
        ensures laws { IsLayout (F.arithmetic self.now.0) self.now.1 }
    {
        &self.matrix
    }

    /// The faces: y is directly under x where the incidence of x and y isn't zero. No memory.
    pub fn faces(&self) -> &Faces
        ensures faces { result.now ≡ self.now.1.faces }
        ensures laws { IsLayout (F.arithmetic self.now.0) self.now.1 }
    {
        &self.faces
    }

    /// The cell with a label, `None` exactly where no cell has it. No memory.
    pub fn cell_of(&self, label: &str) -> Option<u32>
        ensures some { IfSome result (λ k. (k < length self.now.1.labels) × (slice_index_or self.now.1.labels k [] ≡ label.now)) }
        ensures none { IfNone result ((k : ℕ) → k < length self.now.1.labels → slice_index_or self.now.1.labels k [] ≢ label.now) }
        ensures laws { IsLayout (F.arithmetic self.now.0) self.now.1 }
    {
        match self.names.get_index_of(label) {
            Some(k) => Some(k as u32),
            None => None,
        }
    }
}
