//! From a complex and a partition of its cells to a certificate: the Conley-Morse graph, and a connection matrix with its maps.
//! What an analysis is stands in conley_certificate: specs/Analysis.antt, and what its generators keep of the cells in specs/Reduced.antt.
#![tactic(auto)]

mod analysis;
mod graded_cells;
mod naming;
mod text;

pub use analysis::analyze;
pub use graded_cells::over_reach;
pub use text::analysis_text;

/// Want of memory.
pub type NoMemory = std::alloc::AllocError;
