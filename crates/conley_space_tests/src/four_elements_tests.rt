use conley_chains::{Matrix, MatrixError};
use conley_four_elements::FourElements;
use std::alloc::Global;
use std::test::Fail;

/// The codes of the square of the matrix with the rows (w, 1) and (0, w + 1).
fn square(alloc: Global) -> Result<Option<[u8; 4]>, MatrixError> {
    let entries = [(0, 0, 2), (0, 1, 1), (1, 1, 3)];
    let matrix = Matrix::from_entries(alloc, &FourElements, 2, 2, &entries)?;
    let square = matrix.product(alloc, &FourElements, &matrix)?;
    if square.columns() != 2 {
        return Ok(None);
    }
    Ok(Some([
        square.entry(0, 0).code(),
        square.entry(0, 1).code(),
        square.entry(1, 0).code(),
        square.entry(1, 1).code(),
    ]))
}

#[test]
fn a_product_over_four_elements(rt: HostRuntime) -> Result<(), Fail> {
    // w·w is w + 1, w + (w + 1) is 1, and (w + 1)·(w + 1) is w.
    assert!(rt; square(rt.alloc())? == Some([3, 1, 0, 2]));
    Ok(())
}
