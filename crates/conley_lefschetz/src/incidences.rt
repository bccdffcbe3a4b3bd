//! The first incidence with a fault, and the lists of direct faces.

ghost use Rattle.std.specs.Prelude.{◌≡◌, ◌+◌, ◌<◌, ◌≤◌, ◌↔◌, ◌^◌, ℕ, None, [], IfOk, length, map};
ghost use Rattle.conley_chains.specs.Faults.{triple_at};
ghost use Rattle.conley_first.specs.Places.{FindsFirst};
ghost use Rattle.conley_lists.specs.Lists.{items_of, entries_of, ListedStep};
ghost use Rattle.conley_lefschetz.specs.Listing.{incidence_of};
ghost use Rattle.conley_lefschetz.specs.Fault.{IsFault, StoodBefore};
ghost use Rattle.conley_lefschetz.specs.Making.{FaultAlone, NotesCells, NextFault, AreFacesOf, cells_in_triple};

use conley_faces::{Faces, FacesError};
use conley_field::Scalar;
use conley_lists::put_under;
use indexmap::IndexSet;
use std::alloc::{AllocError, Global};

/// What is wrong with an incidence by itself, as a number; 0 where nothing is.
fn fault_alone(dims: &[u8], incidence: &(u32, u32, Scalar)) -> u8
    ensures { FaultAlone dims.now incidence.now.0 incidence.now.1 incidence.now.2 result }
{
    let (x, y, v) = *incidence;
    let cells = dims.len();
    if x as usize >= cells || y as usize >= cells {
        return 1;
    }
    if dims[x as usize] as u32 != dims[y as usize] as u32 + 1 {
        return 2;
    }
    if v.code() == 0 {
        return 3;
    }
    0
}

/// Notes the cells of an incidence, and says whether they are new.
fn note_cells(stood: &mut IndexSet<(u32, u32)>, x: u32, y: u32) -> Result<bool, AllocError>
    ensures { IfOk result (NotesCells stood.old.keys stood.new.keys x y) }
{
    Ok(stood.insert((x, y))?)
}

/// What is wrong with the next incidence, as a number; 0 where nothing is.
fn next_fault(
    dims: &[u8],
    stood: &mut IndexSet<(u32, u32)>,
    incidence: &(u32, u32, Scalar),
) -> Result<u8, AllocError>
    ensures { IfOk result (NextFault dims.now stood.old.keys stood.new.keys incidence.now.0 incidence.now.1 incidence.now.2) }
{
    let why = fault_alone(dims, incidence);
    if why != 0 {
        return Ok(why);
    }
    if note_cells(stood, incidence.0, incidence.1)? {
        return Ok(0);
    }
    Ok(4)
}

/// The first incidence with a fault. Where there is none, the cells of each are noted in their order.
pub(crate) fn first_fault(
    dims: &[u8],
    incidences: &[(u32, u32, Scalar)],
    stood: &mut IndexSet<(u32, u32)>,
) -> Result<Option<(usize, u8)>, AllocError>
    requires { stood.old.keys ≡ [] }
    ensures fault { IfOk result (FindsFirst (IsFault dims.now incidences.now)) }
    ensures noted { IfOk result (λ found. found ≡ None → stood.new.keys ≡ map cells_in_triple incidences.now) }
{
    for (k, incidence) in incidences.iter().enumerate() {
        let why = next_fault(dims, stood, incidence)?;
        if why != 0 {
            return Ok(Some((k, why)));
        }
    }
    Ok(None)
}

/// The scalar of x and y, zero where none is listed. The set holds the cells of each incidence, so a place in it is that of an incidence.
pub(crate) fn scalar_at(
    places: &IndexSet<(u32, u32)>,
    incidences: &[(u32, u32, Scalar)],
    x: u32,
    y: u32,
) -> Scalar
    requires { places.now.keys ≡ map cells_in_triple incidences.now }
    ensures { result ≡ incidence_of incidences.now x y }
{
    match places.get_index_of(&(x, y)) {
        Some(j) => incidences[j].2,
        None => Scalar::of(0),
    }
}

/// The lists of the cells directly under each cell, as the incidences stand.
fn face_lists(
    alloc: Global,
    cells: usize,
    incidences: &[(u32, u32, Scalar)],
) -> Result<Vec<Vec<u32>>, AllocError>
    requires { (k : ℕ) → k < length incidences.now → (triple_at incidences.now k).0 < cells }
    ensures count { IfOk result (λ lists. length lists.items ≡ cells) }
    ensures entries { IfOk result (λ lists. length (entries_of (items_of lists.items)) ≤ length incidences.now) }
    ensures steps { IfOk result (λ lists. (x y : ℕ) → ListedStep (items_of lists.items) x y ↔ StoodBefore incidences.now (length incidences.now) x y) }
{
    let mut lists: Vec<Vec<u32>> = Vec::new(alloc);
    for _ in 0..cells {
        lists.push(Vec::new(alloc))?;
    }
    for incidence in incidences {
        put_under(&mut lists, incidence.0, incidence.1)?;
    }
    Ok(lists)
}

/// The faces by incidences without a fault.
pub(crate) fn faces_of(
    alloc: Global,
    dims: &[u8],
    incidences: &[(u32, u32, Scalar)],
) -> Result<Faces, AllocError>
    requires few { length dims.now + length incidences.now < 2 ^ 32 }
    requires faultless { (k why : ℕ) → ¬ IsFault dims.now incidences.now k why }
    ensures { IfOk result (AreFacesOf incidences.now (length dims.now)) }
{
    let lists = face_lists(alloc, dims.len(), incidences)?;
    match Faces::new(alloc, &lists) {
        Ok(faces) => Ok(faces),
        Err(FacesError::NoMemory) => Err(AllocError),
        Err(FacesError::Range(_)) => unreachable!(),
        Err(FacesError::Cycle(_)) => unreachable!(),
    }
}
