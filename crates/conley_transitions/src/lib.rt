//! Steps of a multivector field: a cell leads to its faces and to the cells of its part; and the Morse decompositions by these steps.
//! `transitions` makes a smaller digraph with the same reach. Open specs/Step.antt for the steps.
//! The laws of the finest decomposition, of isolation and of invariant parts stand over lists: specs/Flow.antt, specs/Lasso.antt, specs/Morse.antt.
//! Which parts are regular is told by the caller: the crate knows no homology.
#![tactic(auto)]

mod classes;
mod laws;
mod steps;

pub use classes::recurrence_classes;
pub use laws::{finest_decomposition, invariant_parts, isolated_sets};
pub use steps::transitions;

/// Want of memory.
pub type NoMemory = std::alloc::AllocError;
