//! Hulls: the finest multivector field in which the cells of each listed set lie together.
//! A contract sees a hull as the `Partition` that it is; parts are numbered in the order of their least cells.
//! Open specs/Hull.antt first. How parts are joined: specs/Making.antt.
#![tactic(auto)]

mod closing;
mod error;
mod joining;
mod laws;
mod merging;

pub use error::HullError;
pub use laws::hull_is_one;
pub use merging::hull;

/// Want of memory.
pub type NoMemory = std::alloc::AllocError;
