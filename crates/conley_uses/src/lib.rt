//! What crosses crates: a caller of `analyze` and `check`.
#![tactic(auto)]

mod analyzed;

pub use analyzed::checked_analysis;
