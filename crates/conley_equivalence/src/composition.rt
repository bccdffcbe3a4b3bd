//! The identity, and one equivalence after another.

ghost use Rattle.std.specs.Prelude.{◌≡◌, ◌≤◌, ◌^◌, ℕ, Bool, IfOk};
ghost use Rattle.conley_algebra.specs.Entries.{product_of, plus_of};
ghost use Rattle.conley_homotopy.specs.Graded.{Generators, IsGradedComplex};
ghost use Rattle.conley_homotopy.specs.Equivalence.{IsGradedEquivalence, composed, identity_maps};
ghost use Rattle.conley_order.specs.Preorder.{IsPreorder};
ghost use Rattle.conley_chains.specs.Matrix.{Table, entry, column_count, IsTable};
ghost use Rattle.conley_order.specs.Preorder.{IsBelow};
ghost use Rattle.conley_equivalence.specs.MapTables.{maps_of, AreTables};

use crate::Equivalence;
use conley_chains::{Matrix, NoMemory};
use conley_field::Field;
use std::alloc::Global;

/// The identity of a complex with `n` generators; both homotopies are zero.
pub fn identity<F: Field>(alloc: Global, field: &F, n: usize) -> Result<Equivalence, NoMemory>
    requires { n ≤ 2 ^ 32 }
    ensures maps { IfOk result (λ e. maps_of e ≡ identity_maps n) }
    ensures tables { IfOk result (AreTables (F.arithmetic field.now) n n) }
    ensures law { IfOk result (λ e. (cells : ℕ) (test : ℕ → ℕ → Bool) (C : Generators) → IsPreorder cells test → C.count ≡ n
        → IsGradedComplex (F.arithmetic field.now) (IsBelow cells test) C → IsGradedEquivalence (F.arithmetic field.now) (IsBelow cells test) C C (maps_of e)) }
{
    Ok(Equivalence {
        phi: Matrix::identity(alloc, field, n)?,
        psi: Matrix::identity(alloc, field, n)?,
        gamma: Matrix::empty(alloc, n, n)?,
        gamma2: Matrix::empty(alloc, n, n)?,
    })
}

/// One equivalence after another: the first leads from B to A, the second from C to B, so their sizes fit at B. `phi` and `psi` are products,
/// `gamma` is the first's and, between the first's `phi` and `psi`, the second's; `gamma2` is the second's and, between its `psi` and `phi`, the first's.
pub fn compose<F: Field>(
    alloc: Global,
    field: &F,
    first: &Equivalence,
    second: &Equivalence,
) -> Result<Equivalence, NoMemory>
    requires first { AreTables (F.arithmetic field.now) first.now.phi.rows (column_count first.now.phi) first.now }
    requires second { AreTables (F.arithmetic field.now) (column_count first.now.phi) (column_count second.now.phi) second.now }
    ensures maps { IfOk result (λ e. maps_of e ≡ composed (F.arithmetic field.now) (column_count first.now.phi) (maps_of first.now) (maps_of second.now)) }
    ensures tables { IfOk result (AreTables (F.arithmetic field.now) first.now.phi.rows (column_count second.now.phi)) }
    ensures law { IfOk result (λ e. (cells : ℕ) (test : ℕ → ℕ → Bool) (A B C : Generators) → IsPreorder cells test → B.count ≡ column_count first.now.phi
        → IsGradedEquivalence (F.arithmetic field.now) (IsBelow cells test) A B (maps_of first.now)
        → IsGradedEquivalence (F.arithmetic field.now) (IsBelow cells test) B C (maps_of second.now)
        → IsGradedEquivalence (F.arithmetic field.now) (IsBelow cells test) A C (maps_of e)) }
{
    let phi = first.phi.product(alloc, field, &second.phi)?;
    let psi = second.psi.product(alloc, field, &first.psi)?;
    let on_large = plus_product(
        alloc,
        field,
        &first.gamma,
        &first.phi,
        &second.gamma,
        &first.psi,
    )?;
    let on_small = plus_product(
        alloc,
        field,
        &second.gamma2,
        &second.psi,
        &first.gamma2,
        &second.phi,
    )?;
    Ok(Equivalence {
        phi,
        psi,
        gamma: on_large,
        gamma2: on_small,
    })
}

/// A matrix plus the product of three.
fn plus_product<F: Field>(
    alloc: Global,
    field: &F,
    to: &Matrix,
    left: &Matrix,
    middle: &Matrix,
    right: &Matrix,
) -> Result<Matrix, NoMemory>
    requires to { IsTable (F.arithmetic field.now) left.now.rows (column_count right.now) to.now }
    requires left { IsTable (F.arithmetic field.now) left.now.rows (column_count middle.now) left.now }
    requires middle { IsTable (F.arithmetic field.now) (column_count middle.now) (column_count middle.now) middle.now }
    requires right { IsTable (F.arithmetic field.now) (column_count middle.now) (column_count right.now) right.now }
    ensures entries { IfOk result (λ sum. (row column : ℕ) → entry sum row column ≡ plus_of (F.arithmetic field.now) (entry to.now)
        (product_of (F.arithmetic field.now) (column_count middle.now) (product_of (F.arithmetic field.now) (column_count middle.now) (entry left.now)
        (entry middle.now)) (entry right.now)) row column) }
    ensures table { IfOk result (IsTable (F.arithmetic field.now) left.now.rows (column_count right.now)) }
{
    let half = left.product(alloc, field, middle)?;
    let through = half.product(alloc, field, right)?;
    let sum = to.plus(alloc, field, &through, field.one())?;
    Ok(sum)
}
