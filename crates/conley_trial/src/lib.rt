//! Made problems: random vectors on a square grid, for trials of size; and the summary of an analysis.
//! A contract sees a problem as `IsTrialProblem k` says in specs/Trial.antt. Open that first, then specs/Pairs.antt: how the pairs are listed,
//! and specs/Draw.antt: the generator. The summary: specs/Summary.antt.
#![tactic(auto)]

mod cofaces;
mod draw;
mod laws;
mod numbers;
mod pairing;
mod pairs;
mod squares;
mod summary;
mod trial;

pub use laws::{candidates_are_as_said, trial_problem_is_one};
pub use summary::Summary;
pub use trial::trial_problem;

/// Want of memory.
pub type NoMemory = std::alloc::AllocError;
