//! The parts of a field: given whole, or the hull of the listed parts.

ghost use Rattle.std.specs.Prelude.{◌≡◌, ◌<◌, ◌^◌, ℕ, true, false, length, IfOk, OnOk, IsErrOf};
ghost use Rattle.conley_lists.specs.Lists.{items_of, entries_of, ListedStep};
ghost use Rattle.conley_mvf.specs.Partition.{IsMultivectorField};
ghost use Rattle.conley_input.specs.Errors as errors;
ghost use Rattle.conley_input.specs.File as spec;
ghost use Rattle.conley_input.specs.Problem.{IsFieldOf, ArePartsFor};
ghost use Rattle.conley_input.specs.Refusals.{Fails, IsFirstRefusal, IsClear};

use crate::error::{FileFault, InputError};
use conley_field::AnyField;
use conley_hull::{HullError, hull};
use conley_lefschetz::Complex;
use conley_mvf::{PartError, Partition, first_empty};
use std::alloc::Global;

/// Refuses lists that are too long to be numbered together. No memory holds such ones.
fn refuse_many(lists: &[Vec<u32>]) -> Result<(), InputError>
    ensures count { OnOk result (length lists.now < 2 ^ 32) }
    ensures entries { OnOk result (length (entries_of (items_of lists.now)) < 2 ^ 32) }
    ensures err { (error : _) → IsErrOf result error → error ≡ InputError.NoMemory }
{
    if lists.len() > u32::MAX as usize {
        return Err(InputError::NoMemory);
    }
    let mut entries = 0;
    for list in lists {
        if list.len() > u32::MAX as usize - entries {
            return Err(InputError::NoMemory);
        }
        entries += list.len();
    }
    Ok(())
}

/// The refusal of a file whose parts make no partition of its cells.
fn part_error(error: PartError) -> InputError
    ensures { result ≡ errors.part_error error }
{
    match error {
        PartError::Unknown(list, place) => InputError::Bad(FileFault::UnknownCell(list, place)),
        PartError::Repeated(list, place) => InputError::Bad(FileFault::RepeatedCell(list, place)),
        PartError::EmptyPart(k) => InputError::Bad(FileFault::EmptyPart(k)),
        PartError::Gap(k, x, y, z) => InputError::Bad(FileFault::NotLocallyClosed(k, x, y, z)),
        PartError::NoMemory => InputError::NoMemory,
    }
}

/// The partition of the cells into the lists, or their first refusal.
fn whole(
    alloc: Global,
    complex: &Complex<AnyField>,
    lists: &[Vec<u32>],
) -> Result<Partition, InputError>
    requires count { length lists.now < 2 ^ 32 }
    requires entries { length (entries_of (items_of lists.now)) < 2 ^ 32 }
    requires known { (k x : ℕ) → ListedStep (items_of lists.now) k x → x < length complex.now.1.dims }
    ensures ok { (file : spec.File) → IsFieldOf file false complex.now.1 (items_of lists.now) → IsClear file 11 →
        OnOk result ((fault : _) → ¬ Fails file fault) }
    ensures parts { IfOk result (ArePartsFor false complex.now.1.faces (items_of lists.now)) }
    ensures field { IfOk result (IsMultivectorField complex.now.1.faces) }
    ensures err { (file : spec.File) → IsFieldOf file false complex.now.1 (items_of lists.now) → IsClear file 11 →
        (fault : _) → IsErrOf result (InputError.Bad fault) → IsFirstRefusal file fault }
{
    match Partition::whole(alloc, complex.faces(), lists) {
        Ok(partition) => Ok(partition),
        Err(error) => Err(part_error(error)),
    }
}

/// The finest partition in which the cells of each list lie together, or the first refusal of the lists.
fn generated(
    alloc: Global,
    complex: &Complex<AnyField>,
    lists: &[Vec<u32>],
) -> Result<Partition, InputError>
    requires count { length lists.now < 2 ^ 32 }
    requires entries { length (entries_of (items_of lists.now)) < 2 ^ 32 }
    requires known { (k x : ℕ) → ListedStep (items_of lists.now) k x → x < length complex.now.1.dims }
    ensures ok { (file : spec.File) → IsFieldOf file true complex.now.1 (items_of lists.now) → IsClear file 11 →
        OnOk result ((fault : _) → ¬ Fails file fault) }
    ensures parts { IfOk result (ArePartsFor true complex.now.1.faces (items_of lists.now)) }
    ensures field { IfOk result (IsMultivectorField complex.now.1.faces) }
    ensures err { (file : spec.File) → IsFieldOf file true complex.now.1 (items_of lists.now) → IsClear file 11 →
        (fault : _) → IsErrOf result (InputError.Bad fault) → IsFirstRefusal file fault }
{
    if let Some(k) = first_empty(lists) {
        return Err(InputError::Bad(FileFault::EmptyPart(k as u32)));
    }
    match hull(alloc, complex.faces(), lists) {
        Ok(partition) => Ok(partition),
        Err(HullError::Unknown(list, place)) => {
            Err(InputError::Bad(FileFault::UnknownCell(list, place)))
        }
        Err(HullError::NoMemory) => Err(InputError::NoMemory),
    }
}

/// The parts of a field of this kind from the cells of the listed parts, or their first refusal.
/// It is said for each file that lists this complex and these parts.
pub(crate) fn read_field(
    alloc: Global,
    complex: &Complex<AnyField>,
    is_hull: bool,
    lists: &[Vec<u32>],
) -> Result<Partition, InputError>
    requires { (k x : ℕ) → ListedStep (items_of lists.now) k x → x < length complex.now.1.dims }
    ensures ok { (file : spec.File) → IsFieldOf file is_hull complex.now.1 (items_of lists.now) → IsClear file 11 →
        OnOk result ((fault : _) → ¬ Fails file fault) }
    ensures parts { IfOk result (ArePartsFor is_hull complex.now.1.faces (items_of lists.now)) }
    ensures field { IfOk result (IsMultivectorField complex.now.1.faces) }
    ensures err { (file : spec.File) → IsFieldOf file is_hull complex.now.1 (items_of lists.now) → IsClear file 11 →
        (fault : _) → IsErrOf result (InputError.Bad fault) → IsFirstRefusal file fault }
{
    refuse_many(lists)?;
    if is_hull {
        generated(alloc, complex, lists)
    } else {
        whole(alloc, complex, lists)
    }
}
