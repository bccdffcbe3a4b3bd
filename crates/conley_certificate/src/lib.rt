//! What an analysis is, and the laws J1 to J15 that hold exactly of one: definitions and laws, and how a rejection is told.
//! A contract sees a problem as scalars, a complex and the part of each cell. Open specs/Analysis.antt first, then specs/Laws.antt.
#![tactic(auto)]

mod laws;
mod reason;

pub use laws::{generators_are_counted, laws_of_an_analysis, reductions_are_analyses};
pub use reason::Reason;
