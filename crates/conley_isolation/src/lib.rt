//! Named sets: their invariant parts, whether they are isolated, and with which Conley numbers.
//! A contract sees ascending lists of cells. Open specs/Report.antt first; lassos and isolation are those of conley_transitions.
//! How an invariant part is found, over the places of the set's own cells: specs/Making.antt.
#![tactic(auto)]

mod laws;
mod places;
mod set_report;
mod starts;
mod within;

pub use laws::report_is_one;
pub use set_report::{SetReport, invariant_part, isolated, report};

/// Want of memory.
pub type NoMemory = std::alloc::AllocError;
