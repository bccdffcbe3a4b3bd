//! The listed parts and the named sets of a file, by the numbers of their cells.

ghost use Rattle.std.specs.Prelude.{◌≡◌, ◌<◌, ◌≤◌, ◌++◌, ◌∷◌, ℕ, [], Some, None, All, map, take, drop, length, slice_index_or, IfOk, IfSome, OnOk, IsErrOf};
ghost use Rattle.conley_lefschetz.specs.Listing.{bytes_of};
ghost use Rattle.conley_json.specs.Meaning.{texts};
ghost use Rattle.conley_first.specs.Places.{FindsFirst, FindsFirstPlace};
ghost use Rattle.conley_lists.specs.Lists.{items_of, ListedStep};
ghost use Rattle.conley_input.specs.File as spec;
ghost use Rattle.conley_input.specs.Listing.{cell_of, numbers_of, cells_in};
ghost use Rattle.conley_input.specs.Problem.{IsListedAs};
ghost use Rattle.conley_input.specs.Refusals.{IsUnknown, IsFirstRefusal, IsClear};

use crate::error::{FileFault, InputError, kept};
use conley_field::AnyField;
use conley_lefschetz::Complex;
use std::alloc::{AllocError, Global};

/// The number of the cell with a label.
fn cell_of(complex: &Complex<AnyField>, label: &str) -> Option<u32>
    ensures cell { result ≡ cell_of complex.now.1.labels label.now }
    ensures within { IfSome result (λ k. k < length complex.now.1.dims) }
{
    complex.cell_of(label)
}

/// Puts an item at the end of a list.
fn keep<T: Drop>(list: &mut Vec<T>, item: T) -> Result<(), AllocError>
    ensures { OnOk result (list.new.items ≡ list.old.items ++ item ∷ []) }
{
    list.push(item)?;
    Ok(())
}

/// The numbers of the cells of a part or of a named set, or the refusal of its first label that no cell has.
fn number_part(
    alloc: Global,
    complex: &Complex<AnyField>,
    list: usize,
    part: &[String],
) -> Result<Vec<u32>, InputError>
    ensures ok { IfOk result (λ cells. cells.items ≡ numbers_of complex.now.1.labels (length complex.now.1.labels) (bytes_of part.now)) }
    ensures known { IfOk result (λ _. FindsFirstPlace (length part.now) (λ k. cell_of complex.now.1.labels (slice_index_or (bytes_of part.now) k []) ≡ None)
        None) }
    ensures within { IfOk result (λ cells. All (λ x. x < length complex.now.1.dims) cells.items) }
    ensures err { (fault : _) → IsErrOf result (InputError.Bad fault) →
        (place : ℕ) × (fault ≡ FileFault.UnknownCell list place) × FindsFirstPlace (length part.now)
        (λ k. cell_of complex.now.1.labels (slice_index_or (bytes_of part.now) k []) ≡ None) (Some place) }
{
    let mut cells = Vec::new(alloc);
    for (place, label) in part.iter().enumerate() {
        match cell_of(complex, label.as_str()) {
            Some(cell) => keep(&mut cells, cell)?,
            None => {
                let list = kept(list)?;
                let place = kept(place)?;
                return Err(InputError::Bad(FileFault::UnknownCell(list, place)));
            }
        }
    }
    Ok(cells)
}

/// The numbers of the cells of each part and named set, or the refusal of the first label that no cell has.
fn number_parts(
    alloc: Global,
    complex: &Complex<AnyField>,
    parts: &[Vec<String>],
) -> Result<Vec<Vec<u32>>, InputError>
    ensures ok { IfOk result (λ lists. items_of lists.items ≡ map (numbers_of complex.now.1.labels (length complex.now.1.labels)) (map texts parts.now)) }
    ensures known { IfOk result (λ _. FindsFirst (IsUnknown complex.now.1.labels (map texts parts.now)) None) }
    ensures within { IfOk result (λ lists. (k x : ℕ) → ListedStep (items_of lists.items) k x → x < length complex.now.1.dims) }
    ensures err { (fault : _) → IsErrOf result (InputError.Bad fault) →
        (list : ℕ) × (place : ℕ) × (fault ≡ FileFault.UnknownCell list place) × FindsFirst (IsUnknown complex.now.1.labels (map texts parts.now))
        (Some (list, place)) }
{
    let mut lists = Vec::new(alloc);
    for (list, part) in parts.iter().enumerate() {
        let cells = number_part(alloc, complex, list, part)?;
        keep(&mut lists, cells)?;
    }
    Ok(lists)
}

/// The labels of each part, then of each named set.
fn joined(parts: Vec<Vec<String>>, sets: Vec<Vec<String>>) -> Result<Vec<Vec<String>>, AllocError>
    ensures { IfOk result (λ lists. lists.items ≡ parts.items ++ sets.items) }
{
    let mut lists = parts;
    let mut sets = sets;
    lists.append(&mut sets)?;
    Ok(lists)
}

/// The first of these lists, and the others.
fn apart(lists: Vec<Vec<u32>>, count: usize) -> Result<(Vec<Vec<u32>>, Vec<Vec<u32>>), AllocError>
    requires { count ≤ length lists.items }
    ensures first { IfOk result (λ pair. pair.0.items ≡ take count lists.items) }
    ensures others { IfOk result (λ pair. pair.1.items ≡ drop count lists.items) }
{
    let mut first = lists;
    let others = first.split_off(count)?;
    Ok((first, others))
}

/// The numbers of the cells of each part and of each named set, or the first refusal of a label.
/// It is said for each file that lists this complex and these labels.
pub(crate) fn read_lists(
    alloc: Global,
    complex: &Complex<AnyField>,
    parts: Vec<Vec<String>>,
    sets: Vec<Vec<String>>,
) -> Result<(Vec<Vec<u32>>, Vec<Vec<u32>>), InputError>
    ensures parts { IfOk result (λ lists. items_of lists.0.items ≡ cells_in complex.now.1.labels (map texts parts.items)) }
    ensures sets { IfOk result (λ lists. items_of lists.1.items ≡ cells_in complex.now.1.labels (map texts sets.items)) }
    ensures clear { (file : spec.File) → IsListedAs file complex.now.1 (map texts parts.items) (map texts sets.items) → IsClear file 10 →
        IfOk result (λ _. IsClear file 11) }
    ensures parts_within { IfOk result (λ lists. (k x : ℕ) → ListedStep (items_of lists.0.items) k x → x < length complex.now.1.dims) }
    ensures sets_within { IfOk result (λ lists. (k x : ℕ) → ListedStep (items_of lists.1.items) k x → x < length complex.now.1.dims) }
    ensures err { (file : spec.File) → IsListedAs file complex.now.1 (map texts parts.items) (map texts sets.items) → IsClear file 10 →
        (fault : _) → IsErrOf result (InputError.Bad fault) → IsFirstRefusal file fault }
{
    let count = parts.len();
    let labels = joined(parts, sets)?;
    let lists = number_parts(alloc, complex, &labels)?;
    let pair = apart(lists, count)?;
    Ok(pair)
}
