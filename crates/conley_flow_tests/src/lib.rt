//! Tests of the libraries of flow and homology, a module a library.
#![tactic(auto)]

#[cfg(test)]
mod digraph_tests;
#[cfg(test)]
mod homology_tests;
#[cfg(test)]
mod hull_tests;
#[cfg(test)]
mod isolation_tests;
#[cfg(test)]
mod morse_tests;
#[cfg(test)]
mod mvf_tests;
#[cfg(test)]
mod surfaces;
#[cfg(test)]
mod transitions_tests;
