//! Relative homology of a locally closed set of cells, with cycles.
//! The columns of the set's own boundary are reduced, those of the highest dimension first, until the boundaries end at different cells;
//! beside each boundary stands the chain whose boundary it is, where cycles are wanted. A contract sees the list of numbers and the list of cycles.
//! Open specs/Homology.antt first; specs/Reduced.antt and specs/Own.antt say what the reduction keeps.
#![tactic(auto)]

mod collection;
mod column;
mod counting;
mod cycles;
mod elimination;
mod row;

pub use counting::{are_zero, is_regular, numbers};
pub use cycles::{Homology, relative};
use std::alloc::AllocError;

/// Where there is no memory.
pub type NoMemory = AllocError;
