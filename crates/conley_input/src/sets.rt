//! The named sets of a file.

ghost use Rattle.std.specs.Prelude.{◌≡◌, IfOk, length, map, string_bytes};
ghost use Rattle.conley_lefschetz.specs.Listing.{bytes_of};
ghost use Rattle.conley_lists.specs.Lists.{items_of, IsOrderedCopy};

use conley_lists::ordered;
use std::alloc::{AllocError, Global};

/// Cells with a name: ascending, each once.
#[derive(Drop)]
pub struct NamedSet {
    pub name: String,
    pub cells: Vec<u32>,
}

/// The named sets, from their names and the numbers of their cells in any order.
pub(crate) fn read_sets(
    alloc: Global,
    names: &[String],
    lists: &[Vec<u32>],
) -> Result<Vec<NamedSet>, AllocError>
    requires { length names.now ≡ length lists.now }
    ensures names { IfOk result (λ sets. map (λ set. string_bytes set.name) sets.items ≡ bytes_of names.now) }
    ensures cells { IfOk result (λ sets. IsOrderedCopy (items_of (map (λ set. set.cells) sets.items)) (items_of lists.now)) }
{
    let mut sets = Vec::new(alloc);
    for (k, name) in names.iter().enumerate() {
        let name = name.clone()?;
        let cells = ordered(alloc, &lists[k])?;
        sets.push(NamedSet { name, cells })?;
    }
    Ok(sets)
}
