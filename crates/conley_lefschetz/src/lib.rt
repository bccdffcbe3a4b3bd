//! Lefschetz complexes: cells with labels and dimensions, and a boundary over a field whose square is zero.
//! A contract sees a `Complex` as its field beside a record of labels, boundary, dimensions, direct faces and levels. Column x of the
//! boundary has the incidence of x and y in row y; each call hands out the laws that hold of the record.
//! Open specs/Complex.antt first, then specs/Fault.antt for what `Complex::new` refuses and which fault is told.
#![tactic(auto)]

mod boundary;
mod complex;
mod error;
mod incidences;
mod labels;
mod laws;
mod levels;
mod square;

pub use complex::Complex;
pub use error::ComplexError;
pub use labels::first_equal_labels;
pub use laws::{
    complex_of_listing_is_one, conley_numbers_are_one, first_fault_is_one, regular_sets_have_zeros,
};
