//! Equal labels, and their refusal.

ghost use Rattle.std.specs.Prelude.{◌≡◌, ◌<◌, ◌^◌, ℕ, IfOk, IsErrOf, length, string_bytes};
ghost use Rattle.conley_lefschetz.specs.Listing.{bytes_of};
ghost use Rattle.conley_lefschetz.specs.Fault.{IsDuplicate, FindsEqual};
ghost use Rattle.conley_lefschetz.specs.Making.{NumbersLabel, FindsDuplicate};

use crate::ComplexError;
use indexmap::IndexSet;
use std::alloc::{AllocError, Global};

/// Numbers one more label, or gives the number of the equal one that stood before.
fn number_label(numbers: &mut IndexSet<String>, label: String) -> Result<Option<usize>, AllocError>
    ensures { IfOk result (NumbersLabel (bytes_of numbers.old.keys) (bytes_of numbers.new.keys) (string_bytes label)) }
{
    let (number, added) = numbers.insert_full(label)?;
    if added {
        return Ok(None);
    }
    Ok(Some(number))
}

/// Numbers the labels in their order, or refuses two equal ones.
pub(crate) fn number_labels(
    alloc: Global,
    labels: Vec<String>,
) -> Result<IndexSet<String>, ComplexError>
    requires few { length labels.items < 2 ^ 32 }
    ensures labels { IfOk result (λ numbers. bytes_of numbers.keys ≡ bytes_of labels.items) }
    ensures distinct { IfOk result (λ numbers. (i j : ℕ) → ¬ IsDuplicate (bytes_of labels.items) i j) }
    ensures err { (error : _) → IsErrOf result error → FindsDuplicate (bytes_of labels.items) error }
{
    let mut numbers = IndexSet::new(alloc);
    for label in labels {
        let j = numbers.len();
        if let Some(i) = number_label(&mut numbers, label)? {
            return Err(ComplexError::DuplicateLabel(i as u32, j as u32));
        }
    }
    Ok(numbers)
}

/// The first two equal labels, by the later one, then the earlier.
pub fn first_equal_labels(
    alloc: Global,
    labels: &[String],
) -> Result<Option<(usize, usize)>, AllocError>
    ensures { IfOk result (FindsEqual (bytes_of labels.now)) }
{
    let mut numbers = IndexSet::new(alloc);
    for (j, label) in labels.iter().enumerate() {
        if let Some(i) = number_label(&mut numbers, label.clone()?)? {
            return Ok(Some((i, j)));
        }
    }
    Ok(None)
}
