//! The matrices of a pair that is taken out: the boundary that is left, and the maps.

ghost use Rattle.std.specs.Prelude.{◌≡◌, ◌≢◌, ◌≤◌, ◌<◌, ◌^◌, ◌-◌, [], ◌∷◌, ℕ, IfOk};
ghost use Rattle.conley_algebra.specs.Others.{other};
ghost use Rattle.conley_homotopy.specs.Pair.{rest_entry, phi_entry, psi_entry, gamma_entry};
ghost use Rattle.conley_chains.specs.Chain.{coefficient, HasCodes};
ghost use Rattle.conley_chains.specs.Matrix.{entry, IsTable};
ghost use Rattle.conley_equivalence.specs.PairTables.{IsPairOf};

use conley_chains::{Chain, Matrix, NoMemory};
use conley_field::{Field, Scalar};
use std::alloc::Global;

/// The number `i` of those other than `k` and `q`.
pub(crate) fn other(k: u32, q: u32, i: u32) -> u32
    requires { i < 2 ^ 32 - 2 }
    ensures { result ≡ other k q i }
{
    let (low, high) = if k < q { (k, q) } else { (q, k) };
    if i < low {
        i
    } else if i + 1 < high {
        i + 1
    } else {
        i + 2
    }
}

/// The chain with one entry.
fn single(alloc: Global, place: u32, scalar: Scalar) -> Result<Chain, NoMemory>
    requires { scalar ≢ 0 }
    ensures { IfOk result (λ chain. chain ≡ (place, scalar) ∷ []) }
{
    Chain::from_pairs(alloc, &[(place, scalar)])
}

/// How many times `k` cancels the entry of column `x` at `q`.
fn times<F: Field>(field: &F, matrix: &Matrix, n: usize, k: u32, q: u32, x: u32) -> Scalar
    requires pair { IsPairOf (F.arithmetic field.now) n matrix.now k q }
    requires x { x < n }
    ensures value { result ≡ (F.arithmetic field.now).mul (entry matrix.now q x) ((F.arithmetic field.now).inv (entry matrix.now q k)) }
    ensures code { result < (F.arithmetic field.now).order }
{
    field.mul(matrix.entry(q, x), field.inv(matrix.entry(q, k)))
}

/// The boundary on the generators other than `k` and `q`.
pub(crate) fn rest_matrix<F: Field>(
    alloc: Global,
    field: &F,
    matrix: &Matrix,
    n: usize,
    k: u32,
    q: u32,
) -> Result<Matrix, NoMemory>
    requires { IsPairOf (F.arithmetic field.now) n matrix.now k q }
    ensures entries { IfOk result (λ rest. (i j : ℕ) → entry rest i j ≡ rest_entry (F.arithmetic field.now) (entry matrix.now) k q (other k q i)
        (other k q j)) }
    ensures table { IfOk result (IsTable (F.arithmetic field.now) (n - 2) (n - 2)) }
{
    let mut columns = Vec::new(alloc);
    for j in 0..n - 2 {
        let column = rest_column(alloc, field, matrix, n, k, q, other(k, q, j as u32))?;
        columns.push(column)?;
    }
    Ok(Matrix::from_columns(n - 2, columns))
}

/// Column `x` of it.
fn rest_column<F: Field>(
    alloc: Global,
    field: &F,
    matrix: &Matrix,
    n: usize,
    k: u32,
    q: u32,
    x: u32,
) -> Result<Chain, NoMemory>
    requires pair { IsPairOf (F.arithmetic field.now) n matrix.now k q }
    requires x { x < n }
    ensures entries { IfOk result (λ column. (i : ℕ) → coefficient column i ≡ rest_entry (F.arithmetic field.now) (entry matrix.now) k q (other k q i) x) }
    ensures codes { IfOk result (HasCodes (F.arithmetic field.now)) }
{
    let by = field.neg(times(field, matrix, n, k, q, x));
    let cleared = matrix.column(x).plus(alloc, field, by, matrix.column(k))?;
    let rest = cleared.without(alloc, k, q)?;
    Ok(rest)
}

/// The map from the other generators.
pub(crate) fn phi_matrix<F: Field>(
    alloc: Global,
    field: &F,
    matrix: &Matrix,
    n: usize,
    k: u32,
    q: u32,
) -> Result<Matrix, NoMemory>
    requires { IsPairOf (F.arithmetic field.now) n matrix.now k q }
    ensures entries { IfOk result (λ phi. (y j : ℕ) → entry phi y j ≡ phi_entry (F.arithmetic field.now) n (entry matrix.now) k q y (other k q j)) }
    ensures table { IfOk result (IsTable (F.arithmetic field.now) n (n - 2)) }
{
    let mut columns = Vec::new(alloc);
    for j in 0..n - 2 {
        let column = phi_column(alloc, field, matrix, n, k, q, other(k, q, j as u32))?;
        columns.push(column)?;
    }
    Ok(Matrix::from_columns(n, columns))
}

/// Column `x` of it.
fn phi_column<F: Field>(
    alloc: Global,
    field: &F,
    matrix: &Matrix,
    n: usize,
    k: u32,
    q: u32,
    x: u32,
) -> Result<Chain, NoMemory>
    requires pair { IsPairOf (F.arithmetic field.now) n matrix.now k q }
    requires x { x < n }
    ensures entries { IfOk result (λ column. (y : ℕ) → coefficient column y ≡ phi_entry (F.arithmetic field.now) n (entry matrix.now) k q y x) }
    ensures codes { IfOk result (HasCodes (F.arithmetic field.now)) }
{
    let by = field.neg(times(field, matrix, n, k, q, x));
    let of_k = single(alloc, k, field.one())?;
    let of_x = single(alloc, x, field.one())?;
    let column = of_x.plus(alloc, field, by, &of_k)?;
    Ok(column)
}

/// The map to the other generators.
pub(crate) fn psi_matrix<F: Field>(
    alloc: Global,
    field: &F,
    matrix: &Matrix,
    n: usize,
    k: u32,
    q: u32,
) -> Result<Matrix, NoMemory>
    requires { IsPairOf (F.arithmetic field.now) n matrix.now k q }
    ensures entries { IfOk result (λ psi. (i y : ℕ) → entry psi i y ≡ psi_entry (F.arithmetic field.now) n (entry matrix.now) k q (other k q i) y) }
    ensures table { IfOk result (IsTable (F.arithmetic field.now) (n - 2) n) }
{
    let mut columns = Vec::new(alloc);
    for y in 0..n {
        let column = psi_column(alloc, field, matrix, n, k, q, y as u32)?;
        columns.push(column)?;
    }
    Ok(Matrix::from_columns(n - 2, columns))
}

/// Column `y` of it.
fn psi_column<F: Field>(
    alloc: Global,
    field: &F,
    matrix: &Matrix,
    n: usize,
    k: u32,
    q: u32,
    y: u32,
) -> Result<Chain, NoMemory>
    requires pair { IsPairOf (F.arithmetic field.now) n matrix.now k q }
    requires y { y < n }
    ensures entries { IfOk result (λ column. (i : ℕ) → coefficient column i ≡ psi_entry (F.arithmetic field.now) n (entry matrix.now) k q (other k q i) y) }
    ensures codes { IfOk result (HasCodes (F.arithmetic field.now)) }
{
    let image = if y == q {
        negative_inverse_of_boundary(alloc, field, matrix, n, k, q)?
    } else {
        single(alloc, y, field.one())?
    };
    let rest = image.without(alloc, k, q)?;
    Ok(rest)
}

/// The boundary of `k` times the negative of the inverse of its entry at `q`.
fn negative_inverse_of_boundary<F: Field>(
    alloc: Global,
    field: &F,
    matrix: &Matrix,
    n: usize,
    k: u32,
    q: u32,
) -> Result<Chain, NoMemory>
    requires { IsPairOf (F.arithmetic field.now) n matrix.now k q }
    ensures entries { IfOk result (λ image. (x : ℕ) → coefficient image x ≡ (F.arithmetic field.now).neg
        ((F.arithmetic field.now).mul ((F.arithmetic field.now).inv (entry matrix.now q k)) (entry matrix.now x k))) }
    ensures codes { IfOk result (HasCodes (F.arithmetic field.now)) }
{
    let by = field.neg(field.inv(matrix.entry(q, k)));
    let empty = Chain::new(alloc);
    let image = empty.plus(alloc, field, by, matrix.column(k))?;
    Ok(image)
}

/// The homotopy from `q` to `k`.
pub(crate) fn gamma_matrix<F: Field>(
    alloc: Global,
    field: &F,
    matrix: &Matrix,
    n: usize,
    k: u32,
    q: u32,
) -> Result<Matrix, NoMemory>
    requires { IsPairOf (F.arithmetic field.now) n matrix.now k q }
    ensures entries { IfOk result (λ gamma. (y x : ℕ) → entry gamma y x ≡ gamma_entry (F.arithmetic field.now) (entry matrix.now) k q y x) }
    ensures table { IfOk result (IsTable (F.arithmetic field.now) n n) }
{
    let mut columns = Vec::new(alloc);
    for x in 0..n {
        let column = gamma_column(alloc, field, matrix, n, k, q, x as u32)?;
        columns.push(column)?;
    }
    Ok(Matrix::from_columns(n, columns))
}

/// Column `x` of it.
fn gamma_column<F: Field>(
    alloc: Global,
    field: &F,
    matrix: &Matrix,
    n: usize,
    k: u32,
    q: u32,
    x: u32,
) -> Result<Chain, NoMemory>
    requires pair { IsPairOf (F.arithmetic field.now) n matrix.now k q }
    ensures entries { IfOk result (λ column. (y : ℕ) → coefficient column y ≡ gamma_entry (F.arithmetic field.now) (entry matrix.now) k q y x) }
    ensures codes { IfOk result (HasCodes (F.arithmetic field.now)) }
{
    if x == q {
        let column = single(alloc, k, field.inv(matrix.entry(q, k)))?;
        Ok(column)
    } else {
        Ok(Chain::new(alloc))
    }
}
