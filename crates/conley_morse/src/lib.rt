//! The finest Morse decomposition of a multivector field on a complex.
//! The recurrence classes of the digraph of transitions that count are its sets: those of two or more parts, and those of one part that isn't regular.
//! Open specs/Decomposition.antt first; what a Morse decomposition is stands in conley_transitions.
#![tactic(auto)]

mod counting;
mod decomposition;
mod error;
mod order;

pub use decomposition::{Decomposition, morse};
pub use error::MorseError;

/// Want of memory.
pub type NoMemory = std::alloc::AllocError;
