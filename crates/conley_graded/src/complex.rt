//! Graded complexes.

ghost use Rattle.std.specs.Prelude.{◌≡◌, ◌≢◌, AllPairs, ◌<◌, ◌≤◌, ◌^◌, ◌↔◌, ℕ, length, slice_index, IfSome, IsNone};
ghost use Rattle.conley_homotopy.specs.Graded.{IsStrict};
ghost use Rattle.conley_order.specs.Preorder.{IsPreorder, IsBelow};
ghost use Rattle.conley_graded.specs.Structure.{Structure, generators_of, IsFiltered};
ghost use Rattle.conley_graded.specs.Inside.{IsInside, IsFirstInside, IsFirstRowInside};

use conley_chains::Matrix;
use conley_field::Field;
use conley_order::Grading;
use std::marker::Model;

/// The length of a list of different cells, which are at most as many as there are numbers of 32 bits.
fn count_of(cells: &[u32]) -> usize
    requires { AllPairs (λ a b. a ≢ b) cells.now }
    ensures count { result ≡ length cells.now }
    ensures fits { result ≤ 2 ^ 32 }
{
    cells.len()
}

/// Generators, each with a base cell and a dimension, and a boundary that leads from no grade up.
#[derive(Drop)]
pub struct GradedComplex<'g, F: Field, G: Grading> {
    field: F,
    grading: &'g G,
    base: Vec<u32>,
    dims: Vec<u8>,
    matrix: Matrix,
}

impl<'g, F: Field, G: Grading> Model for GradedComplex<'g, F, G> {
    ghost use Rattle.conley_order.specs.Preorder.{IsPreorder};
    ghost use Rattle.conley_graded.specs.Structure.{Structure, IsFiltered};

    ghost Value = { Structure F G };

    ghost view = { λ c. record { field = c.field; grading = c.grading.now; base = c.base.items; dims = c.dims.items; matrix = c.matrix } };

    ghost invariant = { λ c. IsFiltered (F.arithmetic c.field) (G.cell_count c.grading.now) (G.is_below c.grading.now) c.base.items c.dims.items c.matrix
        × IsPreorder (G.cell_count c.grading.now) (G.is_below c.grading.now) };
}

impl<'g, F: Field, G: Grading> GradedComplex<'g, F, G> {
    /// The complex with these base cells, dimensions and boundary. It takes no memory.
    pub fn new(
        field: F,
        grading: &'g G,
        base: Vec<u32>,
        dims: Vec<u8>,
        matrix: Matrix,
    ) -> GradedComplex<'g, F, G>
        requires { IsFiltered (F.arithmetic field) (G.cell_count grading.now) (G.is_below grading.now) base.items dims.items matrix }
        ensures { result ≡ record { field = field; grading = grading.now; base = base.items; dims = dims.items; matrix = matrix } }
    {
        let _cells = grading.cells();
        GradedComplex {
            field,
            grading,
            base,
            dims,
            matrix,
        }
    }

    /// The number of generators. It takes no memory.
    pub fn count(&self) -> usize
        ensures count { result ≡ length self.now.base }
        ensures fits { result ≤ 2 ^ 32 }
        ensures order { IsPreorder (G.cell_count self.now.grading) (G.is_below self.now.grading) }
        ensures filtered { IsFiltered (F.arithmetic self.now.field) (G.cell_count self.now.grading) (G.is_below self.now.grading) self.now.base self.now.dims
            self.now.matrix }
    {
        count_of(&self.base)
    }

    /// The cell that gives generator `i` its grade.
    pub fn base(&self, i: u32) -> u32
        requires { i < length self.now.base }
        ensures base { result ≡ slice_index self.now.base i }
        ensures cell { result < G.cell_count self.now.grading }
    {
        self.base[i as usize]
    }

    /// The dimension of generator `i`. It takes no memory.
    pub fn dim(&self, i: u32) -> u8
        requires { i < length self.now.base }
        ensures { result ≡ slice_index self.now.dims i }
    {
        self.dims[i as usize]
    }

    /// The boundary: column by column, that of each generator. It takes no memory.
    pub fn matrix(&self) -> &Matrix
        ensures { result.now ≡ self.now.matrix }
    {
        &self.matrix
    }

    /// The boundary alone, out of a complex that is handed over. It takes no memory.
    pub fn into_matrix(self) -> Matrix
        ensures { result ≡ self.entry.matrix }
    {
        self.matrix
    }

    /// The field of its scalars. It takes no memory.
    pub fn field(&self) -> &F
        ensures { result.now ≡ self.now.field }
    {
        &self.field
    }

    /// The preorder of the cells. It takes no memory.
    pub fn grading(&self) -> &'g G
        ensures { result.now ≡ self.now.grading }
    {
        self.grading
    }

    /// The first column `K` and row `Q` with an entry between generators of one grade, by columns, then by rows. It takes no memory.
    pub fn first_inside(&self) -> Option<(u32, u32)>
        ensures none { IsNone result ↔ IsStrict (IsBelow (G.cell_count self.now.grading) (G.is_below self.now.grading)) (generators_of self.now) }
        ensures first { IfSome result (λ pair. IsFirstInside (IsBelow (G.cell_count self.now.grading) (G.is_below self.now.grading)) (generators_of self.now)
            pair.0 pair.1) }
    {
        for k in 0..self.count() {
            if let Some(q) = self.first_row_inside(k as u32) {
                return Some((k as u32, q));
            }
        }
        None
    }

    /// The first row of column `k` with an entry between generators of one grade.
    fn first_row_inside(&self, k: u32) -> Option<u32>
        requires { k < length self.now.base }
        ensures none { IsNone result → (q : ℕ) → ¬ IsInside (IsBelow (G.cell_count self.now.grading) (G.is_below self.now.grading)) (generators_of self.now) k
            q }
        ensures first { IfSome result (λ q. IsFirstRowInside (IsBelow (G.cell_count self.now.grading) (G.is_below self.now.grading)) (generators_of self.now) k
            q) }
    {
        let _filtered = self.count();
        let base = self.base(k);
        for e in self.matrix().column(k).entries() {
            if self.grading().below(base, self.base(e.0)) {
                return Some(e.0);
            }
        }
        None
    }
}
