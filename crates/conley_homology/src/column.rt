//! One column of the boundary of a set, reduced until it ends where no other does.

ghost use Rattle.std.specs.Prelude.{◌≡◌, ◌≢◌, ◌<◌, ◌≤◌, ◌+◌, [], ◌∷◌, All, IfOk, IfSome, IfNone, ℕ, length, slice_index_or, true};
ghost use Rattle.std.specs.List.Sorted.{IsStrictlyIncreasing};
ghost use Rattle.conley_lists.specs.Lists.{is_listed};
ghost use Rattle.conley_chains.specs.Chain.{coefficient, HasCodes};
ghost use Rattle.conley_chains.specs.Matrix.{entry, column_count};
ghost use Rattle.conley_homology.specs.Own.{own_entries, place_in, owner_at, IsLast, IsOwnComplex, IsDone, IsEnd, IsChainFor, IsReducedSoFar};
ghost use Rattle.conley_lefschetz.specs.Listing.{dim_in};

use crate::NoMemory;
use crate::row::reduced_as_row;
use conley_chains::{Chain, Matrix};
use conley_field::{Field, Scalar};
use conley_lists::place_of;
use std::alloc::Global;

/// The last entry of a chain.
fn last(chain: &Chain) -> Option<(u32, Scalar)>
    ensures some { IfSome result (IsLast chain.now) }
    ensures none { IfNone result (chain.now ≡ []) }
{
    let entries = chain.entries();
    if entries.len() == 0 {
        return None;
    }
    Some(entries[entries.len() - 1])
}

/// The boundary of a cell of the set, on the cells of the set.
fn own_column(alloc: Global, boundary: &Matrix, set: &[u32], cell: u32) -> Result<Chain, NoMemory>
    requires ascending { IsStrictlyIncreasing set.now }
    requires listed { is_listed set.now cell ≡ true }
    requires cell { cell < column_count boundary.now }
    ensures own { IfOk result (λ chain. (row : ℕ) → coefficient chain row ≡ own_entries boundary.now set.now row cell) }
    ensures codes { IfOk result (λ chain. (n : ℕ) →
        All (λ e. e.1 < n) (slice_index_or boundary.now.columns cell []) → All (λ e. e.1 < n) chain) }
{
    let mut kept = Vec::new(alloc);
    for e in boundary.column(cell).entries() {
        if place_of(set, e.0).is_some() {
            kept.push(*e)?;
        }
    }
    Ok(Chain::from_pairs(alloc, &kept)?)
}

/// A set of cells in a complex, and whether the chains are kept whose boundaries are reduced.
#[derive(Drop)]
pub(crate) struct CellSet<'a> {
    pub(crate) boundary: &'a Matrix,
    pub(crate) dims: &'a [u8],
    pub(crate) set: &'a [u32],
    pub(crate) keeps: bool,
}

/// For each cell of a set a chain that ends there, its boundary on the set, and the cell whose boundary ends there.
/// Where chains aren't kept the empty chain stands for each.
#[derive(Drop)]
pub(crate) struct Columns {
    pub(crate) kept: Vec<Chain>,
    pub(crate) reduced: Vec<Chain>,
    pub(crate) owner: Vec<Option<u32>>,
}

/// A chain or the empty one, the chain's boundary, and where that ends: one more than the place of its last cell.
#[derive(Drop)]
pub(crate) struct Column {
    pub(crate) kept: Chain,
    pub(crate) reduced: Chain,
    pub(crate) end: usize,
}

/// One more than the place of the last cell of a chain, or 0.
fn end_of(set: &[u32], chain: &Chain) -> usize
    requires ascending { IsStrictlyIncreasing set.now }
    requires listed { (x : ℕ) → coefficient chain.now x ≢ 0 → is_listed set.now x ≡ true }
    ensures { IsEnd set.now chain.now result }
{
    match last(chain) {
        None => 0,
        Some(e) => match place_of(set, e.0) {
            None => 0,
            Some(place) => place + 1,
        },
    }
}

/// The owner of the place before the end.
pub(crate) fn owner_of(owner: &[Option<u32>], end: usize) -> Option<u32>
    requires { end ≤ length owner.now }
    ensures some { IfSome result (λ j. (p : ℕ) × ((end ≡ p + 1) × (owner_at owner.now p ≡ Some j))) }
    ensures none { IfNone result ((p : ℕ) → end ≡ p + 1 → owner_at owner.now p ≡ None) }
{
    if end == 0 {
        return None;
    }
    owner[end - 1]
}

/// By what the source is multiplied to clear the target's entry at a cell.
fn multiple<F: Field>(field: &F, target: &Chain, source: &Chain, cell: u32) -> Scalar
    requires target_codes { HasCodes (F.arithmetic field.now) target.now }
    requires source_codes { HasCodes (F.arithmetic field.now) source.now }
    requires some { coefficient source.now cell ≢ 0 }
    ensures below { result < (F.arithmetic field.now).order }
    ensures clears { (F.arithmetic field.now).add (coefficient target.now cell)
        ((F.arithmetic field.now).mul result (coefficient source.now cell)) ≡ 0 }
{
    field.neg(field.mul(target.entry(cell), field.inv(source.entry(cell))))
}

/// The cell alone where chains are kept, else the empty chain, to which multiples of empty chains add nothing.
fn first_kept<F: Field>(alloc: Global, field: &F, keeps: bool, cell: u32) -> Result<Chain, NoMemory>
    ensures kept { IfOk result (λ chain. keeps ≡ true → chain ≡ (cell, 1) ∷ []) }
    ensures codes { IfOk result (HasCodes (F.arithmetic field.now)) }
{
    if !keeps {
        return Ok(Chain::new(alloc));
    }
    Ok(Chain::from_pairs(alloc, &[(cell, field.one())])?)
}

/// The chain that ends at cell i of the set, with a boundary that ends where no other does. Once the sums have gone over more entries of
/// the boundary than the complex has cells, it is reduced further as a row of codes, of which the making costs no more than they did.
pub(crate) fn reduced_column<F: Field>(
    alloc: Global,
    field: &F,
    cells: &CellSet,
    columns: &Columns,
    i: usize,
) -> Result<Column, NoMemory>
    requires complex { IsOwnComplex (F.arithmetic field.now) cells.now.boundary.now cells.now.dims.now cells.now.set.now }
    requires so_far { IsReducedSoFar (F.arithmetic field.now) cells.now.boundary.now cells.now.dims.now cells.now.set.now cells.now.keeps
        (IsDone cells.now.dims.now cells.now.set.now (dim_in cells.now.dims.now (place_in cells.now.set.now i)) i)
        columns.now.kept.items columns.now.reduced.items columns.now.owner.items }
    requires cell { i < length cells.now.set.now }
    ensures chains { IfOk result (λ column. IsChainFor (F.arithmetic field.now) cells.now.boundary.now cells.now.dims.now cells.now.set.now cells.now.keeps i
        column.kept column.reduced) }
    ensures end { IfOk result (λ column. IsEnd cells.now.set.now column.reduced column.end) }
    ensures free { IfOk result (λ column. (p : ℕ) → column.end ≡ p + 1 → owner_at columns.now.owner.items p ≡ None) }
{
    let cell = cells.set[i];
    let mut kept = first_kept(alloc, field, cells.keeps, cell)?;
    let mut reduced = own_column(alloc, cells.boundary, cells.set, cell)?;
    let mut end = end_of(cells.set, &reduced);
    let mut summed = 0usize;
    while let Some(source) = owner_of(&columns.owner, end) {
        if summed > cells.dims.len() {
            return reduced_as_row(
                alloc,
                field,
                cells,
                columns,
                i,
                Column { kept, reduced, end },
            );
        }
        summed = summed.saturating_add(reduced.entries().len());
        let other = &columns.reduced[source as usize];
        let by = multiple(field, &reduced, other, cells.set[end - 1]);
        reduced = reduced.plus(alloc, field, by, other)?;
        kept = kept.plus(alloc, field, by, &columns.kept[source as usize])?;
        end = end_of(cells.set, &reduced);
    }
    Ok(Column { kept, reduced, end })
}
