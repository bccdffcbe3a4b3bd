//! Partitions of cells into locally closed parts: multivector fields.
//! A contract sees a `Partition` as the list of the part numbers of the cells; parts are numbered in the order of their least cells.
//! Open specs/Partition.antt first, then specs/Fault.antt for what `Partition::whole` refuses and which fault is told.
//! Parts of a hull aren't made here.
#![tactic(auto)]

mod error;
mod faults;
mod laws;
mod numbering;
mod partition;

pub use error::PartError;
pub use faults::{first_empty, first_unknown};
pub use laws::first_fault_is_one;
pub use partition::Partition;

/// Want of memory.
pub type NoMemory = std::alloc::AllocError;
