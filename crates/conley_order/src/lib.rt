//! Preorders of cells, and reach between classes of cells as rows of bits.
//! A `Grading` is seen as a count and a test: the cells are the numbers below the count, and the test tells which are at or below which.
//! `ReachRows` is seen as the class of each cell and a row of words for each class. Open specs/Preorder.antt first, then specs/ClassRows.antt.
//! Nothing is searched here: the rows are handed in.
#![tactic(auto)]

mod bits;
mod grading;
mod lower;
mod reach_rows;
mod words;

pub use bits::{has_bit, join_row, set_bit};
pub use grading::{Grading, same};
pub use lower::{is_next, lower_rows, lower_still};
pub use reach_rows::ReachRows;
pub use words::words_of;
