//! The faces of cells.

ghost use Rattle.std.specs.Prelude.{◌≡◌, ◌+◌, ◌<◌, ◌≤◌, ◌^◌, ◌↔◌, ℕ, [], OnOk, IfOk, IfSome, IfNone, IsNone, IsTrue, true, false, Contains, length, slice_index_or};
ghost use Rattle.std.specs.List.Sorted.{IsStrictlyIncreasing};
ghost use Rattle.conley_walk.specs.Walk.{Reaches};
ghost use Rattle.conley_lists.specs.Lists.{items_of, ListedStep, IsDigraph, AllAscend, entries_of, IsFirstOutOfRange, IsOrderedCopy};
ghost use Rattle.conley_faces.specs.Face.{IsFace, IsCellList, IsGap, IsFirstGap, IsLocallyClosed, IsInClosure, IsInMouth, IsBelowItself, IsLeastBelowItself};
ghost use Rattle.conley_faces.specs.FaceOrder.{IsFaceOrder};

use crate::closures::{least_below_itself, made_closures};
use crate::lists::{first_common, gathered, left_out};
use crate::{FacesError, NoMemory};
use conley_lists::{all_ordered, first_out_of_range, ordered, stands_in};
use std::alloc::Global;
use std::marker::Model;

/// Which cells are faces of which: a walk leads down to them by the cells directly under each cell.
#[derive(Drop)]
pub struct Faces {
    direct: Vec<Vec<u32>>,
    closures: Vec<Vec<u32>>,
}

impl Model for Faces {
    ghost use Rattle.std.specs.Prelude.{ℕ, List};
    ghost use Rattle.conley_lists.specs.Lists.{items_of};
    ghost use Rattle.conley_faces.specs.Closures.{IsFaceTable};

    ghost Value = { List (List ℕ) };

    ghost view = { λ f. items_of f.direct.items };

    ghost invariant = { λ f. IsFaceTable (items_of f.direct.items) (items_of f.closures.items) };
}

impl Faces {
    /// The faces over lists of the cells directly under each cell, in any order, also with repeats.
    /// `Range` comes first, then `Cycle`.
    pub fn new(alloc: Global, lists: &[Vec<u32>]) -> Result<Faces, FacesError>
        requires { length lists.now + length (entries_of (items_of lists.now)) < 2 ^ 32 }
        ensures range { (k : ℕ) → result ≡ Err (FacesError.Range k) → IsFirstOutOfRange (items_of lists.now) k }
        ensures cycle { (x : ℕ) → result ≡ Err (FacesError.Cycle x) → IsDigraph (items_of lists.now) × IsLeastBelowItself (items_of lists.now) x }
        ensures ok { IfOk result (λ faces. IsDigraph (items_of lists.now) × IsOrderedCopy faces (items_of lists.now)) }
        ensures no_cycle { OnOk result ((x : ℕ) → ¬ IsBelowItself (items_of lists.now) x) }
    {
        if let Some(entry) = first_out_of_range(lists) {
            return Err(FacesError::Range(entry));
        }
        let direct = all_ordered(alloc, lists)?;
        let closures = made_closures(alloc, &direct)?;
        if let Some(cell) = least_below_itself(alloc, &direct, &closures)? {
            return Err(FacesError::Cycle(cell));
        }
        Ok(Faces { direct, closures })
    }

    /// How many cells there are. It takes no memory.
    pub fn count(&self) -> usize
        ensures count { result ≡ length self.now }
        ensures order { IsFaceOrder self.now }
    {
        self.direct.len()
    }

    /// The cells directly under x, ascending and distinct. It takes no memory.
    pub fn direct(&self, x: u32) -> &[u32]
        requires { x < length self.now }
        ensures cells { result.now ≡ slice_index_or self.now x [] }
        ensures ascending { IsStrictlyIncreasing result.now }
        ensures order { IsFaceOrder self.now }
    {
        &self.direct[x as usize]
    }

    /// For each cell those directly under it, ascending and distinct. It takes no memory.
    pub fn all_direct(&self) -> &[Vec<u32>]
        ensures count { length result.now ≡ length self.now }
        ensures cells { items_of result.now ≡ self.now }
        ensures order { IsFaceOrder self.now }
    {
        self.direct.as_slice()
    }

    /// For each cell its faces, ascending and distinct. It takes no memory.
    pub fn all_faces(&self) -> &[Vec<u32>]
        ensures count { length result.now ≡ length self.now }
        ensures ascending { AllAscend (items_of result.now) }
        ensures digraph { IsDigraph (items_of result.now) }
        ensures faces { (x y : ℕ) → ListedStep (items_of result.now) x y ↔ IsFace self.now x y }
        ensures order { IsFaceOrder self.now }
    {
        self.closures.as_slice()
    }

    /// The faces of x, ascending.
    fn faces_of(&self, x: u32) -> &[u32]
        requires { x < length self.now }
        ensures ascending { IsStrictlyIncreasing result.now }
        ensures faces { (y : ℕ) → Contains result.now y ↔ IsFace self.now x y }
        ensures order { IsFaceOrder self.now }
    {
        &self.closures[x as usize]
    }

    /// Whether y is a face of x, by binary search. It takes no memory.
    pub fn is_face(&self, x: u32, y: u32) -> bool
        requires upper { x < length self.now }
        requires lower { y < length self.now }
        ensures { IsTrue result ↔ IsFace self.now x y }
    {
        stands_in(self.faces_of(x), y)
    }

    /// The first cell of the set that is a face of y. The longer of the two lists is searched.
    fn first_face_in(&self, y: u32, set: &[u32]) -> Option<u32>
        requires cell { y < length self.now }
        requires set { IsCellList self.now set.now }
        ensures found { IfSome result (λ z. Contains set.now z × IsFace self.now y z × ((w : ℕ) → Contains set.now w → IsFace self.now y w → z ≤ w)) }
        ensures none { IfNone result ((z : ℕ) → Contains set.now z → ¬ IsFace self.now y z) }
    {
        let faces = self.faces_of(y);
        if set.len() < faces.len() {
            return first_common(set, faces);
        }
        first_common(faces, set)
    }

    /// Whether a step from x leads out of the set, to a cell that has a face in it.
    fn leaves_and_returns(&self, x: u32, set: &[u32]) -> bool
        requires cell { Contains set.now x }
        requires set { IsCellList self.now set.now }
        ensures yes { result ≡ true → ¬ IsLocallyClosed self.now set.now }
        ensures no { result ≡ false → (y z : ℕ) → ListedStep self.now x y → ¬ Contains set.now y → Contains set.now z → ¬ Reaches (ListedStep self.now) y z }
    {
        for y in self.direct(x) {
            if !stands_in(set, *y) {
                if let Some(_) = self.first_face_in(*y, set) {
                    return true;
                }
            }
        }
        false
    }

    /// Whether the set has a gap. Only the cells directly under those of the set are looked at.
    fn has_gap(&self, set: &[u32]) -> bool
        requires { IsCellList self.now set.now }
        ensures yes { result ≡ true → ¬ IsLocallyClosed self.now set.now }
        ensures no { result ≡ false → IsLocallyClosed self.now set.now }
    {
        for x in set {
            if self.leaves_and_returns(*x, set) {
                return true;
            }
        }
        false
    }

    /// The first gap below the cell x.
    fn first_gap_below(&self, x: u32, set: &[u32]) -> Option<(u32, u32)>
        requires cell { Contains set.now x }
        requires set { IsCellList self.now set.now }
        ensures gap { IfSome result (λ p. IsGap self.now set.now x p.0 p.1) }
        ensures first { IfSome result (λ p. (y z : ℕ) → IsGap self.now set.now x y z → (p.0 ≤ y) × (y ≡ p.0 → p.1 ≤ z)) }
        ensures none { IfNone result ((y z : ℕ) → ¬ IsGap self.now set.now x y z) }
    {
        for y in self.faces_of(x) {
            if !stands_in(set, *y) {
                if let Some(z) = self.first_face_in(*y, set) {
                    return Some((*y, z));
                }
            }
        }
        None
    }

    /// All faces of the cells of the set, ascending.
    pub fn closure(&self, alloc: Global, set: &[u32]) -> Result<Vec<u32>, NoMemory>
        requires { IsCellList self.now set.now }
        ensures cells { IfOk result (λ list. IsCellList self.now list.items) }
        ensures closure { IfOk result (λ list. (y : ℕ) → Contains list.items y ↔ IsInClosure self.now set.now y) }
    {
        let all = gathered(alloc, &self.closures, set)?;
        let list = ordered(alloc, &all)?;
        Ok(list)
    }

    /// The faces of the cells of the set that aren't in it, ascending.
    pub fn mouth(&self, alloc: Global, set: &[u32]) -> Result<Vec<u32>, NoMemory>
        requires { IsCellList self.now set.now }
        ensures cells { IfOk result (λ list. IsCellList self.now list.items) }
        ensures mouth { IfOk result (λ list. (y : ℕ) → Contains list.items y ↔ IsInMouth self.now set.now y) }
    {
        let closure = self.closure(alloc, set)?;
        let list = left_out(alloc, &closure, set)?;
        Ok(list)
    }

    /// The faces y of x with z a face of y, ascending.
    pub fn between(&self, alloc: Global, x: u32, z: u32) -> Result<Vec<u32>, NoMemory>
        requires upper { x < length self.now }
        requires lower { z < length self.now }
        ensures cells { IfOk result (λ list. IsCellList self.now list.items) }
        ensures between { IfOk result (λ list. (y : ℕ) → Contains list.items y ↔ (IsFace self.now x y × IsFace self.now y z)) }
    {
        let mut list = Vec::new(alloc);
        for y in self.faces_of(x) {
            if self.is_face(*y, z) {
                list.push(*y)?;
            }
        }
        Ok(list)
    }

    /// The first gap (x, y, z) of the set in the order of triples, if it isn't locally closed. It takes no memory.
    pub fn find_gap(&self, set: &[u32]) -> Option<(u32, u32, u32)>
        requires { IsCellList self.now set.now }
        ensures none { IsNone result ↔ IsLocallyClosed self.now set.now }
        ensures gap { IfSome result (IsFirstGap self.now set.now) }
    {
        if !self.has_gap(set) {
            return None;
        }
        for x in set {
            if let Some((y, z)) = self.first_gap_below(*x, set) {
                return Some((*x, y, z));
            }
        }
        None
    }
}
