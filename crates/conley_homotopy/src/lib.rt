//! Graded complexes, graded chain equivalences and what they say of homology, as definitions and laws.
//! Generators, maps and boundaries are functions of numbers, as in conley_algebra; the relation that grades them is a parameter.
//! The laws: equivalences compose, a pair inside a grade is taken out, the generators of a grade count the homology of its class, and
//! a basis for the cells of a set alone is one for its closure relative to its mouth.
//! Open specs/Graded.antt, then specs/Equivalence.antt and specs/Laws.antt. There is no working code.
#![tactic(auto)]

mod laws;

pub use laws::{
    equivalences_compose, grades_restrict, own_bases_are_relative, pairs_are_taken_out,
};
