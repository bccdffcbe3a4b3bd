//! The cells of the sets by their labels.

ghost use Rattle.std.specs.Prelude.{◌≡◌, ◌++◌, ◌∷◌, [], ℕ, false, true, length, map, IfOk, OnOk, IfSome, IfNone, IsErrOf};
ghost use Rattle.conley_json.specs.Meaning.{texts};
ghost use Rattle.conley_lists.specs.Lists.{items_of};
ghost use Rattle.conley_lefschetz.specs.Listing.{bytes_of};
ghost use Rattle.conley_certificate_file.specs.Certificate.{AreNamed};
ghost use Rattle.conley_certificate_file.specs.Refusals.{IsBadSet};
ghost use Rattle.conley_certificate_file.specs.Making.{IsFirstItem, ReadsSet, IsBadAlone};

use crate::error::{CertError, bad_place};
use conley_field::Field;
use conley_lefschetz::Complex;
use std::alloc::{AllocError, Global};

/// The cells of a set, each of which gets its mark. None where the set is empty, or one of its labels is no cell's or that of a cell with a mark.
fn read_set<F: Field>(
    alloc: Global,
    complex: &Complex<F>,
    set: &[String],
    seen: &mut Vec<bool>,
) -> Result<Option<Vec<u32>>, AllocError>
    requires { length seen.old.items ≡ length complex.now.1.labels }
    ensures cells { IfOk result (λ found. IfSome found (λ cells. ReadsSet complex.now.1.labels (bytes_of set.now) seen.old.items seen.new.items cells.items)) }
    ensures none { IfOk result (λ found. IfNone found (IsBadAlone complex.now.1.labels (bytes_of set.now) seen.old.items)) }
{
    if set.is_empty() {
        return Ok(None);
    }
    let mut cells = Vec::new(alloc);
    for label in set {
        let Some(x) = complex.cell_of(label.as_str()) else {
            return Ok(None);
        };
        if seen[x as usize] {
            return Ok(None);
        }
        seen[x as usize] = true;
        cells.push(x)?;
    }
    Ok(Some(cells))
}

/// Puts a list at the end of others.
fn keep(lists: &mut Vec<Vec<u32>>, cells: Vec<u32>) -> Result<(), AllocError>
    ensures { OnOk result (lists.new.items ≡ lists.old.items ++ cells ∷ []) }
{
    lists.push(cells)?;
    Ok(())
}

/// The cells of each set, or the refusal of the first set that is empty, has a label that no cell has, or a cell that stood earlier.
pub(crate) fn read_sets<F: Field>(
    alloc: Global,
    complex: &Complex<F>,
    sets: &[Vec<String>],
) -> Result<Vec<Vec<u32>>, CertError>
    ensures named { IfOk result (λ lists. AreNamed complex.now.1.labels (map texts sets.now) (items_of lists.items)) }
    ensures fine { IfOk result (λ _. (k : ℕ) → ¬ IsBadSet complex.now.1.labels (map texts sets.now) k) }
    ensures err { (fault : _) → IsErrOf result (CertError.Bad fault) → IsFirstItem (IsBadSet complex.now.1.labels (map texts sets.now)) 3 fault }
{
    let mut seen = vec![in alloc; false; complex.count()]?;
    let mut lists = Vec::new(alloc);
    for (k, set) in sets.iter().enumerate() {
        match read_set(alloc, complex, set, &mut seen)? {
            Some(cells) => keep(&mut lists, cells)?,
            None => return Err(bad_place(3, k)),
        }
    }
    Ok(lists)
}
