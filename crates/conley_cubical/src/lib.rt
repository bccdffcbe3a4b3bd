//! Cubical complexes from listed cubes: the cubes and all their faces.
//! A contract sees the complex as a `Complex` of conley_lefschetz. Open specs/Cube.antt first, then specs/Cubical.antt for the values of
//! faces, and specs/Fault.antt for what `cubical` refuses and which fault is told.
#![tactic(auto)]

mod complex;
mod error;
mod laws;
mod pairs;
mod shape;

pub use complex::cubical;
pub use error::CubicalError;
pub use laws::{complex_of_cubes_is_one, first_fault_is_one};
