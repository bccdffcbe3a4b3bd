//! Which of several faults is the first, in a stated order, and how a fault is told.
//! A fault has a number, which its kind has, and a place: numbers that say where it stands. Faults are compared by number, then by place.
//! Readers, constructors and checkers say of a refusal that it is the first fault that holds; open specs/First.antt for what that means.
//! A fault is told by a name and the numbers that it keeps: specs/Told.antt.
#![tactic(auto)]

mod laws;
mod told;

pub use laws::first_is_one;
pub use told::Told;
