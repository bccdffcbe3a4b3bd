//! Equivalences as four matrices.

use conley_chains::Matrix;

/// Maps between a large and a small complex: `phi` leads from the small one to the large one, `psi` back;
/// `gamma` is a homotopy on the large one, `gamma2` on the small one.
#[derive(Drop)]
pub struct Equivalence {
    pub phi: Matrix,
    pub psi: Matrix,
    pub gamma: Matrix,
    pub gamma2: Matrix,
}
