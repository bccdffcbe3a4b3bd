//! One pair of generators taken out of a graded complex.

ghost use Rattle.std.specs.Prelude.{◌≡◌, ◌≢◌, ◌≤◌, ◌<◌, ◌^◌, ◌-◌, ℕ, IfOk, length};
ghost use Rattle.conley_algebra.specs.Entries.{zero_entries, SameEntries};
ghost use Rattle.conley_algebra.specs.Others.{other};
ghost use Rattle.conley_homotopy.specs.Pair.{rest_entry, phi_entry, psi_entry, gamma_entry, ArePairFormulas};
ghost use Rattle.conley_homotopy.specs.Reduction.{IsPairStep, IsReducedTo};
ghost use Rattle.conley_chains.specs.Matrix.{entry, IsTable};
ghost use Rattle.conley_order.specs.Preorder.{IsBelow};
ghost use Rattle.conley_graded.specs.Structure.{Structure, generators_of};
ghost use Rattle.conley_graded.specs.Inside.{IsInside};
ghost use Rattle.conley_equivalence.specs.MapTables.{maps_of, AreTables};
ghost use Rattle.conley_equivalence.specs.PairTables.{IsPairOf, IsWithoutPair};

use crate::Equivalence;
use crate::pair_matrices::{gamma_matrix, other, phi_matrix, psi_matrix, rest_matrix};
use conley_chains::{Matrix, NoMemory};
use conley_field::Field;
use conley_graded::GradedComplex;
use conley_order::Grading;
use std::alloc::Global;

/// The complex without generators `k` and `q`, which the entry of column `k` at `q` joins, and the maps to it and back.
/// The other generators keep their order.
pub fn of_pair<'g, F: Field, G: Grading>(
    alloc: Global,
    graded: &GradedComplex<'g, F, G>,
    k: u32,
    q: u32,
) -> Result<(GradedComplex<'g, F, G>, Equivalence), NoMemory>
    requires { IsInside (IsBelow (G.cell_count graded.now.grading) (G.is_below graded.now.grading)) (generators_of graded.now) k q }
    ensures field { IfOk result (λ r. r.0.field ≡ graded.now.field) }
    ensures grading { IfOk result (λ r. r.0.grading ≡ graded.now.grading) }
    ensures pair { IfOk result (λ r. ArePairFormulas (F.arithmetic graded.now.field) (generators_of graded.now) k q (generators_of r.0) (maps_of r.1)) }
    ensures tables { IfOk result (λ r. AreTables (F.arithmetic graded.now.field) (length graded.now.base) (length r.0.base) r.1) }
    ensures reduction { IfOk result (λ r. IsReducedTo (F.arithmetic graded.now.field) (IsBelow (G.cell_count graded.now.grading)
        (G.is_below graded.now.grading)) (generators_of graded.now) (generators_of r.0) (maps_of r.1)) }
    ensures step { IfOk result (λ r. IsPairStep (F.arithmetic graded.now.field) (IsBelow (G.cell_count graded.now.grading) (G.is_below graded.now.grading))
        (generators_of graded.now) k q (generators_of r.0) (other k q) (maps_of r.1)) }
{
    let rest = rest_complex(alloc, graded, k, q)?;
    let maps = pair_maps(alloc, graded.field(), graded.matrix(), graded.count(), k, q)?;
    Ok((rest, maps))
}

/// The other generators, with the boundary that is left.
fn rest_complex<'g, F: Field, G: Grading>(
    alloc: Global,
    graded: &GradedComplex<'g, F, G>,
    k: u32,
    q: u32,
) -> Result<GradedComplex<'g, F, G>, NoMemory>
    requires { IsInside (IsBelow (G.cell_count graded.now.grading) (G.is_below graded.now.grading)) (generators_of graded.now) k q }
    ensures field { IfOk result (λ rest. rest.field ≡ graded.now.field) }
    ensures grading { IfOk result (λ rest. rest.grading ≡ graded.now.grading) }
    ensures base { IfOk result (λ rest. IsWithoutPair k q graded.now.base rest.base) }
    ensures dims { IfOk result (λ rest. IsWithoutPair k q graded.now.dims rest.dims) }
    ensures boundary { IfOk result (λ rest. (i j : ℕ) → entry rest.matrix i j ≡ rest_entry (F.arithmetic graded.now.field) (entry graded.now.matrix) k q
        (other k q i) (other k q j)) }
{
    let matrix = rest_matrix(alloc, graded.field(), graded.matrix(), graded.count(), k, q)?;
    let base = other_bases(alloc, graded, k, q)?;
    let dims = other_dims(alloc, graded, k, q)?;
    Ok(GradedComplex::new(*graded.field(), graded.grading(), base, dims, matrix))
}

/// The base cells of the other generators.
fn other_bases<'g, F: Field, G: Grading>(
    alloc: Global,
    graded: &GradedComplex<'g, F, G>,
    k: u32,
    q: u32,
) -> Result<Vec<u32>, NoMemory>
    requires differ { k ≢ q }
    requires k { k < length graded.now.base }
    requires q { q < length graded.now.base }
    ensures { IfOk result (λ base. IsWithoutPair k q graded.now.base base.items) }
{
    let mut base = Vec::new(alloc);
    for i in 0..graded.count() - 2 {
        base.push(graded.base(other(k, q, i as u32)))?;
    }
    Ok(base)
}

/// The dimensions of the other generators.
fn other_dims<'g, F: Field, G: Grading>(
    alloc: Global,
    graded: &GradedComplex<'g, F, G>,
    k: u32,
    q: u32,
) -> Result<Vec<u8>, NoMemory>
    requires differ { k ≢ q }
    requires k { k < length graded.now.base }
    requires q { q < length graded.now.base }
    ensures { IfOk result (λ dims. IsWithoutPair k q graded.now.dims dims.items) }
{
    let mut dims = Vec::new(alloc);
    for i in 0..graded.count() - 2 {
        dims.push(graded.dim(other(k, q, i as u32)))?;
    }
    Ok(dims)
}

/// The maps between a matrix's complex and that without the pair.
fn pair_maps<F: Field>(
    alloc: Global,
    field: &F,
    matrix: &Matrix,
    n: usize,
    k: u32,
    q: u32,
) -> Result<Equivalence, NoMemory>
    requires { IsPairOf (F.arithmetic field.now) n matrix.now k q }
    ensures phi { IfOk result (λ e. (y j : ℕ) → entry e.phi y j ≡ phi_entry (F.arithmetic field.now) n (entry matrix.now) k q y (other k q j)) }
    ensures psi { IfOk result (λ e. (i y : ℕ) → entry e.psi i y ≡ psi_entry (F.arithmetic field.now) n (entry matrix.now) k q (other k q i) y) }
    ensures gamma { IfOk result (λ e. (y x : ℕ) → entry e.gamma y x ≡ gamma_entry (F.arithmetic field.now) (entry matrix.now) k q y x) }
    ensures gamma2 { IfOk result (λ e. (i j : ℕ) → entry e.gamma2 i j ≡ 0) }
    ensures tables { IfOk result (AreTables (F.arithmetic field.now) n (n - 2)) }
{
    let phi = phi_matrix(alloc, field, matrix, n, k, q)?;
    let psi = psi_matrix(alloc, field, matrix, n, k, q)?;
    let gamma = gamma_matrix(alloc, field, matrix, n, k, q)?;
    let gamma2 = Matrix::empty(alloc, n - 2, n - 2)?;
    Ok(Equivalence {
        phi,
        psi,
        gamma,
        gamma2,
    })
}
