ghost use Rattle.std.specs.Prelude.{◌≡◌, IfOk, length};

use conley_field::{Field, PrimeField, Scalar};
use conley_lefschetz::{Complex, ComplexError};
use std::alloc::{AllocError, Global};
use std::test::Fail;

/// Labels of cells.
pub fn labels_of(alloc: Global, texts: &[&str]) -> Result<Vec<String>, AllocError> {
    let mut labels = Vec::new(alloc);
    for text in texts {
        labels.push(String::from_str(alloc, text)?)?;
    }
    Ok(labels)
}

/// Incidences of cells by their numbers, with codes.
fn incidences_of(
    alloc: Global,
    triples: &[(u32, u32, u8)],
) -> Result<Vec<(u32, u32, Scalar)>, AllocError> {
    let mut incidences = Vec::new(alloc);
    for (x, y, code) in triples {
        incidences.push((*x, *y, Scalar::of(*code)))?;
    }
    Ok(incidences)
}

/// What a listing makes: labels and dimensions, and for two cells the code of their incidence.
pub fn complex_of(
    alloc: Global,
    field: PrimeField,
    labels: Vec<String>,
    dims: Vec<u8>,
    triples: &[(u32, u32, u8)],
) -> Result<Result<Complex<PrimeField>, ComplexError>, Fail> {
    let incidences = incidences_of(alloc, triples)?;
    let order = field.order();
    if labels.len() != dims.len() || !incidences.iter().all(|i| i.2.code() < order) {
        return Err("no listing".into());
    }
    Ok(Complex::new(alloc, field, labels, dims, &incidences))
}

const LABELS: [&str; 7] = ["a", "b", "c", "ab", "bc", "ca", "abc"];

const DIMS: [u8; 7] = [0, 0, 0, 1, 1, 1, 2];

const INCIDENCES: [(u32, u32, u8); 9] = [
    (3, 0, 1),
    (3, 1, 1),
    (4, 1, 1),
    (4, 2, 1),
    (5, 2, 1),
    (5, 0, 1),
    (6, 3, 1),
    (6, 4, 1),
    (6, 5, 1),
];

/// A triangle with its edges and vertices over two elements; the triangle has number 6.
pub fn triangle(alloc: Global) -> Result<Complex<PrimeField>, Fail>
    ensures { IfOk result (λ c. length c.1.dims ≡ 7) }
{
    let labels = labels_of(alloc, &LABELS)?;
    let dims = Vec::from_slice(alloc, &DIMS)?;
    let complex = complex_of(alloc, PrimeField::Two, labels, dims, &INCIDENCES)??;
    if complex.count() != 7 {
        return Err("not seven cells".into());
    }
    Ok(complex)
}

/// Whether the cells have these labels, in this order.
pub fn has_labels<F: Field>(complex: &Complex<F>, labels: &[&str]) -> bool {
    let count = complex.count();
    if count != labels.len() {
        return false;
    }
    for x in 0..count as u32 {
        if complex.label(x) != labels[x as usize] {
            return false;
        }
    }
    true
}
