//! The pairs that are listed so far.

ghost use Rattle.std.specs.Prelude.{◌≡◌, ◌<◌, ◌++◌, ◌∷◌, [], ℕ, All, OnOk, IfOk, length};
ghost use Rattle.std.specs.List.Sorted.{IsStrictlyIncreasing};

use crate::NoMemory;
use std::alloc::Global;

/// Pairs of cells, and the number that the next draw is made from.
#[derive(Drop)]
pub(crate) struct Pairing {
    pub(crate) last: u32,
    pub(crate) pairs: Vec<Vec<u32>>,
    /// A mark for each cell that stands in a pair.
    pub(crate) paired: Vec<bool>,
}
