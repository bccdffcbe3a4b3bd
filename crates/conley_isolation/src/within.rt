//! The steps within a set, as lists of places.

ghost use Rattle.std.specs.Prelude.{◌≡◌, ◌↔◌, ◌<◌, ◌^◌, ℕ, All, Contains, OnOk, IfOk, length, slice_index};
ghost use Rattle.conley_lists.specs.Lists.{items_of};
ghost use Rattle.conley_faces.specs.Face.{IsCellList};
ghost use Rattle.conley_mvf.specs.Partition.{IsMultivectorField};
ghost use Rattle.conley_isolation.specs.Making.{IsUnder, HasFaceSteps, LinksFirsts, IsWithin};

use crate::NoMemory;
use crate::places::{firsts_of, parts_of, places_in};
use conley_faces::Faces;
use conley_lists::put_under;
use conley_mvf::Partition;
use std::alloc::Global;

/// The places in the set of the cells directly under x, or of the faces of x.
fn heads_of(
    alloc: Global,
    faces: &Faces,
    set: &[u32],
    x: u32,
    direct: bool,
) -> Result<Vec<u32>, NoMemory>
    requires set { IsCellList faces.now set.now }
    requires few { length set.now < 2 ^ 32 }
    requires cell { x < length faces.now }
    ensures { IfOk result (λ heads. (j : ℕ) → Contains heads.items j ↔ ((j < length set.now) × IsUnder direct faces.now x (slice_index set.now j))) }
{
    if direct {
        let heads = places_in(alloc, faces.direct(x), set)?;
        return Ok(heads);
    }
    let heads = places_in(alloc, &faces.all_faces()[x as usize], set)?;
    Ok(heads)
}

/// The steps down within the set.
fn face_steps(
    alloc: Global,
    faces: &Faces,
    set: &[u32],
    direct: bool,
) -> Result<Vec<Vec<u32>>, NoMemory>
    requires set { IsCellList faces.now set.now }
    requires few { length set.now < 2 ^ 32 }
    ensures { IfOk result (λ lists. HasFaceSteps direct faces.now set.now (length set.now) (items_of lists.items)) }
{
    let mut lists = Vec::new(alloc);
    for x in set {
        lists.push(heads_of(alloc, faces, set, *x, direct)?)?;
    }
    Ok(lists)
}

/// Steps from each place to the first of its part, and back.
fn link_firsts(lists: &mut Vec<Vec<u32>>, firsts: &[u32]) -> Result<(), NoMemory>
    requires few { length firsts.now < 2 ^ 32 }
    requires count { length lists.old.items ≡ length firsts.now }
    requires firsts { All (λ i. i < length firsts.now) firsts.now }
    ensures { OnOk result (LinksFirsts firsts.now (length firsts.now) (items_of lists.old.items) (items_of lists.new.items)) }
{
    for i in 0..firsts.len() as u32 {
        let first = firsts[i as usize];
        put_under(lists, i, first)?;
        put_under(lists, first, i)?;
    }
    Ok(())
}

/// The cells of a set by their places: the part of each, the first place of its part, and the steps within the set.
#[derive(Drop)]
pub(crate) struct Within {
    pub(crate) parts: Vec<u32>,
    pub(crate) firsts: Vec<u32>,
    /// Steps that lead wherever steps by faces and parts within the set lead: down, and in each part by its first place.
    pub(crate) steps: Vec<Vec<u32>>,
}

/// The set by its places. Where it has no gap a face is reached by the cells directly under each cell.
pub(crate) fn within_set(
    alloc: Global,
    faces: &Faces,
    partition: &Partition,
    set: &[u32],
) -> Result<Within, NoMemory>
    requires field { IsMultivectorField faces.now partition.now }
    requires set { IsCellList faces.now set.now }
    ensures { IfOk result (λ w. IsWithin faces.now partition.now set.now w.parts.items w.firsts.items (items_of w.steps.items)) }
{
    let _order = faces.count();
    let parts = parts_of(alloc, partition, set)?;
    let firsts = firsts_of(alloc, &parts, partition.count())?;
    let direct = faces.find_gap(set).is_none();
    let mut steps = face_steps(alloc, faces, set, direct)?;
    link_firsts(&mut steps, &firsts)?;
    Ok(Within {
        parts,
        firsts,
        steps,
    })
}
