//! Graded chain equivalences as four matrices: the identity, one pair taken out, and one after another.
//! A contract reads an `Equivalence` by `maps_of` (specs/MapTables.antt).
#![tactic(auto)]

mod composition;
mod equivalence;
mod pair_matrices;
mod pair_step;

pub use composition::{compose, identity};
pub use equivalence::Equivalence;
pub use pair_step::of_pair;
