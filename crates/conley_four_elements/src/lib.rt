//! A field of a caller's own, which is none of the table of conley_field: the one with four elements.
//! Open specs/FourElements.antt for its arithmetic.
#![tactic(auto)]

mod elements;

pub use elements::FourElements;
