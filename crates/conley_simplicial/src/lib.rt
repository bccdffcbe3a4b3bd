//! Simplicial complexes from vertices and listed simplices: all vertices, and all parts of the listed simplices that aren't empty.
//! A contract sees the complex as a `Complex` of conley_lefschetz. Open specs/Simplex.antt first, then specs/Simplicial.antt for the
//! values of faces, and specs/Fault.antt for what `simplicial` refuses and which fault is told.
#![tactic(auto)]

mod complex;
mod error;
mod faults;
mod laws;
mod seeds;
mod shape;

pub use complex::simplicial;
pub use error::SimplicialError;
pub use laws::{complex_of_simplices_is_one, first_fault_is_one};
