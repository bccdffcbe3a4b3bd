//! Sparse chains and matrices over a field, as finite maps.
//! A contract sees a `Chain` as its ascending list of places with codes other than zero, and a `Matrix` as its number of rows with the
//! list of its columns, each such a list. It reads them by `coefficient chain place` and `entry matrix row column`, which are 0 where
//! nothing is kept; so a clause speaks of all places, and equal entries at all places and equal sizes make equal values (src/laws.rt).
//! Open specs/Chain.antt first, then specs/Matrix.antt and specs/Faults.antt.
#![tactic(auto)]

mod chain;
mod codes;
mod error;
mod laws;
mod matrix;
mod placing;
mod transposing;

pub use chain::Chain;
pub use error::MatrixError;
pub use laws::{equal_codes_make_one_chain, equal_entries_make_one_matrix};
pub use matrix::Matrix;
use std::alloc::AllocError;

/// Where there is no memory.
pub type NoMemory = AllocError;
