//! Tests of the libraries of scalars, chains and spaces, a module a library.
#![tactic(auto)]

#[cfg(test)]
mod chains_tests;
#[cfg(test)]
mod cubical_tests;
#[cfg(test)]
mod entries;
#[cfg(test)]
mod faces_tests;
#[cfg(test)]
mod field_tests;
#[cfg(test)]
mod four_elements_tests;
#[cfg(test)]
mod lefschetz_tests;
#[cfg(test)]
mod lists_tests;
#[cfg(test)]
mod order_tests;
#[cfg(test)]
mod simplicial_tests;
#[cfg(test)]
mod walk_tests;
