ghost use Rattle.std.specs.Prelude.{◌≡◌, ◌≢◌, ◌<◌, ◌≤◌, ◌==◌, ◌-◌, [], All, AllPairs, map, IfOk, IfErr, OnOk, OnErr, ℕ, ◌^◌, length, slice_index_or};
ghost use Rattle.std.specs.List.Sorted.{IsStrictlyIncreasing};
ghost use Rattle.conley_field.specs.Arithmetic.{Arithmetic};
ghost use Rattle.conley_algebra.specs.Entries.{identity_of};
ghost use Rattle.conley_chains.specs.Chain.{coefficient, IsChain, HasCodes};
ghost use Rattle.conley_chains.specs.Faults.{fault_within, code_at, IsFaultless, IsFirstFault};
ghost use Rattle.conley_chains.specs.Sums.{IsImage, IsProduct, IsMatrixSum, AddsColumn, IsMatrixPart};
ghost use Rattle.conley_chains.specs.Placing.{placed_at, IsInOrder, AreApart, triple_of};
ghost use Rattle.conley_chains.specs.Matrix.{Table, entry, column_count, AllCodes, KeepsRows, AreColumns, IsTable};

use crate::placing::{Placed, place_triples, sort_by_place};
use crate::transposing::{empty_chains, row_lengths, spread};
use crate::{Chain, MatrixError, NoMemory};
use conley_field::{Field, Scalar};
use std::alloc::Global;
use std::marker::Model;

/// Up to this many columns are added one after another.
const FEW: usize = 8;

/// A finite map from rows and columns to scalars other than zero.
#[derive(Drop)]
pub struct Matrix {
    row_count: usize,
    kept: Vec<Chain>,
}

impl Model for Matrix {
    ghost use Rattle.conley_chains.specs.Matrix.{Table, AreColumns};

    ghost Value = { Table };

    ghost view = { λ m. record { rows = m.row_count; columns = m.kept.items } };

    ghost invariant = { λ m. AreColumns m.row_count m.kept.items };
}

impl Matrix {
    /// The matrix of this size with these entries, each a row, a column and a code. The least entry with a fault is refused: `Range` where
    /// its row, its column or its code is out of range, then `Zero` where the code is 0, then `Repeated` where its place stood before.
    pub fn from_entries<F: Field>(
        alloc: Global,
        field: &F,
        rows: usize,
        columns: usize,
        entries: &[(u32, u32, u8)],
    ) -> Result<Matrix, MatrixError>
        requires few { length entries.now < 2 ^ 32 - 1 }
        ensures faultless { OnOk result (IsFaultless (fault_within rows columns (F.arithmetic field.now).order entries.now) (length entries.now)) }
        ensures entries { IfOk result (λ matrix. (row column : ℕ) → entry matrix row column ≡ code_at entries.now row column) }
        ensures table { IfOk result (IsTable (F.arithmetic field.now) rows columns) }
        ensures first { IfErr result (λ error. error ≢ MatrixError.NoMemory →
            IsFirstFault (fault_within rows columns (F.arithmetic field.now).order entries.now) (length entries.now) error) }
    {
        let (mut placed, fault) = place_triples(alloc, rows, columns, field.order(), entries)?;
        if let Some(k) = sort_by_place(&mut placed) {
            return Err(MatrixError::Repeated(k));
        }
        if let Some(error) = fault {
            return Err(error);
        }
        let kept = columns_of(alloc, columns, &placed)?;
        Ok(Matrix::from_columns(rows, kept))
    }

    /// The matrix with these columns, whose places are below the number of rows. It takes no memory.
    pub fn from_columns(rows: usize, columns: Vec<Chain>) -> Matrix
        requires { KeepsRows rows columns.items }
        ensures { result ≡ record { rows = rows; columns = columns.items } }
    {
        all_chains(&columns);
        Matrix {
            row_count: rows,
            kept: columns,
        }
    }

    /// The matrix of this size without entries.
    pub fn empty(alloc: Global, rows: usize, columns: usize) -> Result<Matrix, NoMemory>
        ensures entries { IfOk result (λ matrix. (row column : ℕ) → entry matrix row column ≡ 0) }
        ensures table { IfOk result (λ matrix. (K : Arithmetic) → IsTable K rows columns matrix) }
    {
        let mut kept = Vec::new(alloc);
        for turn in 0..columns {
            kept.push(Chain::new(alloc))?;
        }
        Ok(Matrix::from_columns(rows, kept))
    }

    /// The identity with `n` rows.
    pub fn identity<F: Field>(alloc: Global, field: &F, n: usize) -> Result<Matrix, NoMemory>
        requires { n ≤ 2 ^ 32 }
        ensures entries { IfOk result (λ matrix. (row column : ℕ) → entry matrix row column ≡ identity_of n row column) }
        ensures table { IfOk result (IsTable (F.arithmetic field.now) n n) }
    {
        let mut kept = Vec::new(alloc);
        for i in 0..n {
            kept.push(Chain::from_pairs(alloc, &[(i as u32, field.one())])?)?;
        }
        Ok(Matrix::from_columns(n, kept))
    }

    /// The number of rows. It takes no memory.
    pub fn rows(&self) -> usize
        ensures rows { result ≡ self.now.rows }
        ensures kept { AreColumns self.now.rows self.now.columns }
    {
        self.row_count
    }

    /// The number of columns. It takes no memory.
    pub fn columns(&self) -> usize
        ensures { result ≡ column_count self.now }
    {
        self.kept.len()
    }

    /// A column, as the chain of its rows. It takes no memory.
    pub fn column(&self, column: u32) -> &Chain
        requires { column < column_count self.now }
        ensures column { result.now ≡ slice_index_or self.now.columns column [] }
        ensures keeps_rows { (row : ℕ) → self.now.rows ≤ row → entry self.now row column ≡ 0 }
    {
        &self.kept[column as usize]
    }

    /// The columns, each as the chain of its rows. It takes no memory.
    pub fn into_columns(self) -> Vec<Chain>
        ensures { result.items ≡ self.columns }
    {
        self.kept
    }

    /// The scalar in a row and a column, or zero where nothing is kept. It takes no memory.
    pub fn entry(&self, row: u32, column: u32) -> Scalar
        requires { column < column_count self.now }
        ensures { result ≡ entry self.now row column }
    {
        self.column(column).entry(row)
    }

    /// Column `target` gains `by` times column `source`; all other columns and the size stay. After `NoMemory` the matrix is as before.
    pub fn add_scaled<F: Field>(
        &mut self,
        field: &F,
        target: u32,
        source: u32,
        by: Scalar,
    ) -> Result<(), NoMemory>
        requires target_within { target < column_count self.old }
        requires source_within { source < column_count self.old }
        requires codes { AllCodes (F.arithmetic field.now) self.old }
        requires by_below { by < (F.arithmetic field.now).order }
        ensures entries { OnOk result (AddsColumn (F.arithmetic field.now) self.old target source by self.new) }
        ensures rows { self.new.rows ≡ self.old.rows }
        ensures columns { column_count self.new ≡ column_count self.old }
        ensures codes { AllCodes (F.arithmetic field.now) self.new }
        ensures err { OnErr result (self.new ≡ self.old) }
    {
        let alloc = *self.kept.allocator();
        let sum = self
            .column(target)
            .plus(alloc, field, by, self.column(source))?;
        self.kept[target as usize] = sum;
        Ok(())
    }

    /// The image of a chain on the columns: at each row, the sum over all columns of the entry times the chain's scalar.
    pub fn apply<F: Field>(
        &self,
        alloc: Global,
        field: &F,
        chain: &Chain,
    ) -> Result<Chain, NoMemory>
        requires fits { (place : ℕ) → column_count self.now ≤ place → coefficient chain.now place ≡ 0 }
        requires codes { AllCodes (F.arithmetic field.now) self.now }
        requires chain_codes { HasCodes (F.arithmetic field.now) chain.now }
        ensures image { IfOk result (IsImage (F.arithmetic field.now) self.now chain.now) }
        ensures codes { IfOk result (HasCodes (F.arithmetic field.now)) }
    {
        self.image(alloc, field, chain.entries())
    }

    /// The image of the entries of a chain. Of many entries each half is taken by itself, so that a code is added no more often than
    /// a logarithm of their number.
    fn image<F: Field>(
        &self,
        alloc: Global,
        field: &F,
        entries: &[(u32, Scalar)],
    ) -> Result<Chain, NoMemory>
        requires chain { IsChain entries.now }
        requires fits { All (λ e. e.0 < column_count self.now) entries.now }
        requires codes { AllCodes (F.arithmetic field.now) self.now }
        requires chain_codes { HasCodes (F.arithmetic field.now) entries.now }
        ensures image { IfOk result (IsImage (F.arithmetic field.now) self.now entries.now) }
        ensures codes { IfOk result (HasCodes (F.arithmetic field.now)) }
    {
        if entries.len() <= FEW {
            return self.image_of_few(alloc, field, entries);
        }
        let half = entries.len() / 2;
        let first = self.image(alloc, field, &entries[..half])?;
        let rest = self.image(alloc, field, &entries[half..])?;
        let sum = first.plus(alloc, field, field.one(), &rest)?;
        Ok(sum)
    }

    /// The same, one entry after another.
    fn image_of_few<F: Field>(
        &self,
        alloc: Global,
        field: &F,
        entries: &[(u32, Scalar)],
    ) -> Result<Chain, NoMemory>
        requires chain { IsChain entries.now }
        requires fits { All (λ e. e.0 < column_count self.now) entries.now }
        requires codes { AllCodes (F.arithmetic field.now) self.now }
        requires chain_codes { HasCodes (F.arithmetic field.now) entries.now }
        ensures image { IfOk result (IsImage (F.arithmetic field.now) self.now entries.now) }
        ensures codes { IfOk result (HasCodes (F.arithmetic field.now)) }
    {
        let mut image = Chain::new(alloc);
        for e in entries {
            image = image.plus(alloc, field, e.1, self.column(e.0))?;
        }
        Ok(image)
    }

    /// The matrix times another, which has as many rows as this one has columns. Entry (r, c) is the sum over all k of entry (r, k) of this
    /// matrix times entry (k, c) of the other.
    pub fn product<F: Field>(
        &self,
        alloc: Global,
        field: &F,
        right: &Matrix,
    ) -> Result<Matrix, NoMemory>
        requires fits { right.now.rows ≡ column_count self.now }
        requires codes { AllCodes (F.arithmetic field.now) self.now }
        requires right_codes { AllCodes (F.arithmetic field.now) right.now }
        ensures product { IfOk result (IsProduct (F.arithmetic field.now) self.now right.now) }
        ensures table { IfOk result (IsTable (F.arithmetic field.now) self.now.rows (column_count right.now)) }
    {
        let rows = self.row_count;
        let mut columns = Vec::new(alloc);
        for column in &right.kept {
            columns.push(self.apply(alloc, field, column)?)?;
        }
        Ok(Matrix::from_columns(rows, columns))
    }

    /// The same matrix once more.
    pub fn copy(&self, alloc: Global) -> Result<Matrix, NoMemory>
        ensures { IfOk result (λ matrix. matrix ≡ self.now) }
    {
        let mut columns = Vec::new(alloc);
        for column in &self.kept {
            columns.push(column.copy(alloc)?)?;
        }
        Ok(Matrix {
            row_count: self.row_count,
            kept: columns,
        })
    }

    /// The matrix plus `by` times another of the same size.
    pub fn plus<F: Field>(
        &self,
        alloc: Global,
        field: &F,
        other: &Matrix,
        by: Scalar,
    ) -> Result<Matrix, NoMemory>
        requires rows { other.now.rows ≡ self.now.rows }
        requires columns { column_count other.now ≡ column_count self.now }
        requires codes { AllCodes (F.arithmetic field.now) self.now }
        requires other_codes { AllCodes (F.arithmetic field.now) other.now }
        requires by_below { by < (F.arithmetic field.now).order }
        ensures sum { IfOk result (IsMatrixSum (F.arithmetic field.now) self.now by other.now) }
        ensures table { IfOk result (IsTable (F.arithmetic field.now) self.now.rows (column_count self.now)) }
    {
        let rows = self.row_count;
        let mut columns = Vec::new(alloc);
        for k in 0..self.kept.len() {
            let column = self.kept[k].plus(alloc, field, by, &other.kept[k])?;
            columns.push(column)?;
        }
        Ok(Matrix::from_columns(rows, columns))
    }

    /// The listed rows and columns, numbered anew: entry (i, j) is that of the i-th listed row and the j-th listed column.
    pub fn restrict(&self, alloc: Global, rows: &[u32], columns: &[u32]) -> Result<Matrix, NoMemory>
        requires rows_ascend { IsStrictlyIncreasing rows.now }
        requires columns_within { All (λ c. c < column_count self.now) columns.now }
        requires few { length rows.now < 2 ^ 32 }
        ensures entries { IfOk result (IsMatrixPart rows.now columns.now self.now) }
        ensures rows { IfOk result (λ part. part.rows ≡ length rows.now) }
        ensures columns { IfOk result (λ part. column_count part ≡ length columns.now) }
        ensures codes { IfOk result (λ part. (n : ℕ) → All (λ c. All (λ e. e.1 < n) c) self.now.columns → All (λ c. All (λ e. e.1 < n) c) part.columns) }
    {
        let mut parts = Vec::new(alloc);
        for column in columns {
            parts.push(self.column(*column).restrict(alloc, rows)?)?;
        }
        Ok(Matrix::from_columns(rows.len(), parts))
    }

    /// The matrix with rows and columns exchanged, in two passes over the entries, of which the first counts them.
    pub fn transpose(&self, alloc: Global) -> Result<Matrix, NoMemory>
        requires few { column_count self.now ≤ 2 ^ 32 }
        ensures entries { IfOk result (λ turned. (row column : ℕ) → entry turned row column ≡ entry self.now column row) }
        ensures table { IfOk result (λ turned. (K : Arithmetic) → AllCodes K self.now → IsTable K (column_count self.now) self.now.rows turned) }
    {
        let room = row_lengths(alloc, self.row_count, &self.kept)?;
        let mut rows = empty_chains(alloc, &room)?;
        for k in 0..self.kept.len() {
            spread(&mut rows, k as u32, &self.kept[k])?;
        }
        Ok(Matrix::from_columns(self.kept.len(), rows))
    }
}

/// Each column keeps what every chain keeps.
fn all_chains(columns: &[Chain])
    ensures { All IsChain columns.now }
{
    for column in columns {
        column.entries();
    }
}

/// The first columns of entries that stand in order at places that differ.
fn columns_of(alloc: Global, count: usize, placed: &[Placed]) -> Result<Vec<Chain>, NoMemory>
    requires in_order { AllPairs IsInOrder placed.now }
    requires apart { AreApart placed.now (length placed.now) }
    requires not_zero { All (λ p. p.code ≢ 0) placed.now }
    ensures count { IfOk result (λ columns. length columns.items ≡ count) }
    ensures codes { IfOk result (λ columns. (n : ℕ) → All (λ p. p.code < n) placed.now → All (λ es. All (λ e. e.1 < n) es) columns.items) }
    ensures entries { IfOk result (λ columns. (row k : ℕ) → k < count → coefficient (slice_index_or columns.items k []) row ≡ code_at
        (map triple_of placed.now) row k) }
{
    let mut columns = Vec::with_capacity(alloc, count)?;
    let mut start = 0;
    for column in 0..count {
        let end = end_of_run(placed, start, column);
        columns.push(Chain::from_placed(alloc, &placed[start..end])?)?;
        start = end;
    }
    Ok(columns)
}

/// Where the entries of a column end that begin at an index.
fn end_of_run(placed: &[Placed], start: usize, column: usize) -> usize
    requires { start ≤ length placed.now }
    ensures from { start ≤ result }
    ensures within { result ≤ length placed.now }
    ensures own { (k : ℕ) → start ≤ k → k < result → (placed_at placed.now k).column ≡ column }
    ensures other { result < length placed.now → (placed_at placed.now result).column ≢ column }
{
    let mut end = start;
    while end < placed.len() && placed[end].column as usize == column {
        end += 1;
    }
    end
}
