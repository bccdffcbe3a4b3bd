//! What several crates of tests are made from: lists of a table, complexes of a listing and their labels, a triangle.
//! A fixture promises only what the calls ask that it is handed to, and answers `Err` where its table is too long for that.
#![tactic(auto)]

mod complexes;
mod tables;

pub use complexes::{complex_of, has_labels, labels_of, triangle};
pub use tables::lists_of;
