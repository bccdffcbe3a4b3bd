//! Partitions.

ghost use Rattle.std.specs.Prelude.{◌≡◌, ◌≢◌, ◌<◌, ◌≤◌, ◌^◌, ◌↔◌, ℕ, All, OnOk, IfOk, IsErrOf, Contains, length, slice_index};
ghost use Rattle.std.specs.List.Sorted.{IsStrictlyIncreasing};
ghost use Rattle.conley_lists.specs.Lists.{items_of, entries_of};
ghost use Rattle.conley_mvf.specs.Partition.{IsInPart, IsPartNumber, IsPartition, IsMultivectorField, HaveNoGap, HaveSameParts, IsWhole};
ghost use Rattle.conley_mvf.specs.Fault.{Fails, IsFirstFault};

use crate::faults::{first_empty, first_gap, first_repeat, first_unknown};
use crate::numbering::{firsts_by_label, firsts_of, numbers_of};
use crate::{NoMemory, PartError};
use conley_faces::Faces;
use conley_lists::{all_ordered, gathered};
use std::alloc::Global;
use std::marker::Model;

/// Cells in parts. The parts are numbered from 0 in the order of their least cells.
#[derive(Drop)]
pub struct Partition {
    part_of: Vec<u32>,
    cells: Vec<Vec<u32>>,
}

impl Model for Partition {
    ghost use Rattle.std.specs.Prelude.{ℕ, List};
    ghost use Rattle.conley_lists.specs.Lists.{items_of};
    ghost use Rattle.conley_mvf.specs.Making.{IsPartitionTable};

    ghost Value = { List ℕ };

    ghost view = { λ p. p.part_of.items };

    ghost invariant = { λ p. IsPartitionTable p.part_of.items (items_of p.cells.items) };
}

impl Partition {
    /// The partition of the cells of the faces into the lists, in any order, and one part for each other cell.
    /// A refusal is the first fault: `Unknown`, then `Repeated`, then `EmptyPart`, then `Gap`, each at its first place.
    pub fn whole(alloc: Global, faces: &Faces, parts: &[Vec<u32>]) -> Result<Partition, PartError>
        requires count { length parts.now < 2 ^ 32 }
        requires entries { length (entries_of (items_of parts.now)) < 2 ^ 32 }
        ensures parts { IfOk result (IsWhole (items_of parts.now)) }
        ensures closed { IfOk result (IsMultivectorField faces.now) }
        ensures accepted { OnOk result ((fault : _) → ¬ Fails faces.now (items_of parts.now) fault) }
        ensures err { (error : _) → IsErrOf result error → error ≢ PartError.NoMemory → IsFirstFault faces.now (items_of parts.now) error }
    {
        let count = faces.count();
        if let Some((list, place)) = first_unknown(parts, count) {
            return Err(PartError::Unknown(list as u32, place as u32));
        }
        if let Some((list, place)) = first_repeat(alloc, parts, count)? {
            return Err(PartError::Repeated(list as u32, place as u32));
        }
        if let Some(k) = first_empty(parts) {
            return Err(PartError::EmptyPart(k as u32));
        }
        let lists = all_ordered(alloc, parts)?;
        if let Some((k, (x, y, z))) = first_gap(faces, &lists) {
            return Err(PartError::Gap(k as u32, x, y, z));
        }
        let least = firsts_of(alloc, count, &lists)?;
        let part_of = numbers_of(alloc, &least)?;
        let cells = gathered(alloc, &part_of)?;
        Ok(Partition { part_of, cells })
    }

    /// The partition whose parts are the cells with one label. The labels are numbers of cells.
    pub fn labelled(alloc: Global, faces: &Faces, labels: &[u32]) -> Result<Partition, NoMemory>
        requires count { length labels.now ≡ length faces.now }
        requires labels { All (λ p. p < length labels.now) labels.now }
        requires closed { HaveNoGap faces.now labels.now }
        ensures parts { IfOk result (HaveSameParts labels.now) }
        ensures closed { IfOk result (IsMultivectorField faces.now) }
    {
        let _order = faces.count();
        let least = firsts_by_label(alloc, labels)?;
        let part_of = numbers_of(alloc, &least)?;
        let cells = gathered(alloc, &part_of)?;
        Ok(Partition { part_of, cells })
    }

    /// How many parts there are. It takes no memory.
    pub fn count(&self) -> usize
        ensures count { (p : ℕ) → (p < result) ↔ IsPartNumber self.now p }
        ensures few { result ≤ length self.now }
        ensures partition { IsPartition self.now }
    {
        self.cells.len()
    }

    /// The part of a cell. It takes no memory.
    pub fn part_of(&self, cell: u32) -> u32
        requires { cell < length self.now }
        ensures { result ≡ slice_index self.now cell }
    {
        self.part_of[cell as usize]
    }

    /// The cells of a part, ascending. It takes no memory.
    pub fn cells_of(&self, part: u32) -> &[u32]
        requires { IsPartNumber self.now part }
        ensures cells { (x : ℕ) → Contains result.now x ↔ IsInPart self.now part x }
        ensures ascending { IsStrictlyIncreasing result.now }
    {
        &self.cells[part as usize]
    }
}
